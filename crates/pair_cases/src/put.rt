// Bytes put behind one another.
ghost use Rattle.std.specs.Prelude.{◌<◌, ◌≤◌};

use std::alloc::{AllocError, Global};

// The bytes of a job so far.
#[derive(Drop)]
pub struct Writer {
    pub bytes: Vec<u8>,
}

// A byte that no field should be mistaken for.
pub fn filler_byte(i: u32, salt: u8) -> u8 {
    (((i % 256) * 73 + salt as u32) % 256) as u8 ^ 0xA5
}

impl Writer {
    pub fn new(alloc: Global) -> Self {
        Writer {
            bytes: Vec::new(alloc),
        }
    }

    pub fn byte(&mut self, x: u8) -> Result<(), AllocError> {
        self.bytes.push(x)?;
        Ok(())
    }

    // One line each, with the name of the size.
    pub fn half(&mut self, x: u16) -> Result<(), AllocError> {
        self.bytes.extend_from_slice(&x.to_be_bytes())
    }

    pub fn word(&mut self, x: u32) -> Result<(), AllocError> {
        self.bytes.extend_from_slice(&x.to_be_bytes())
    }

    // The filler of a table, from one position of it to another.
    pub fn filler(&mut self, from: u32, end: u32, salt: u8) -> Result<(), AllocError> {
        for i in from..end {
            self.byte(filler_byte(i, salt))?;
        }
        Ok(())
    }

    // Numbers in steps, each as what is left after division.
    pub fn numbers(
        &mut self,
        count: u16,
        first: u16,
        step: u16,
        divisor: u16,
    ) -> Result<(), AllocError>
        requires { (first < divisor) × (step ≤ divisor) × (divisor ≤ 256) }
    {
        let mut number = first;
        for _ in 0..count {
            self.half(number)?;
            number = (number + step) % divisor;
        }
        Ok(())
    }
}
