// Reads a job of up to 65,536 bytes from standard input and prints its offers: under reading 0, or under the reading that
// its one word names, `offers 0` or `offers 1`.
#![tactic(auto)]

use output::lines;
use std::env::FillError;
use std::io;
use std::rt::Env;

// A number that no reading has: `print_job` takes a number and prints the refusal of this one.
const NO_READING: u32 = 2;

// The reading of a word.
fn reading_of(word: u8) -> u32 {
    match word {
        b'0' => 0,
        b'1' => 1,
        _ => NO_READING,
    }
}

// The reading that the program was started with. Any other word, and more than one, names none.
fn reading(rt: &impl Env) -> u32 {
    let mut word = [0u8; 1];
    match (rt.arg(1, &mut word), rt.arg(2, &mut [])) {
        (Err(FillError::NotPresent), _) => 0,
        (Ok(1), Err(FillError::NotPresent)) => reading_of(word[0]),
        _ => NO_READING,
    }
}

fn main(rt: HostRuntime) -> io::Result<()> {
    let mut space = [0u8; 65537];
    let n = input::read_full(&rt, &mut space)?;
    if 65536 < n {
        rt.write_all(b"too long\n")
    } else {
        let _ = lines::print_job(&rt, &space[..n], reading(&rt), false)?;
        Ok(())
    }
}
