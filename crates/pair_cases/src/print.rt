// The lines of the cases.
use crate::put;
use std::{array, io};

// What an offer call is asked of a job: reading, request, number of the offer, and the bytes of the output, of 48 at most.
pub type Call = (u32, u32, u32, usize);

// A number that another job would hardly share.
fn sum_of(job: &[u8]) -> u32 {
    let mut sum: u32 = 0;
    for byte in job {
        sum = (sum * 257 + u32::from(*byte)) % 65521;
    }
    sum
}

// The job's length and sum, and the answer of the check call: refusal and position.
pub fn check(rt: &impl Print, name: &str, job: &[u8]) -> io::Result<()> {
    let checked = stemhook::stemhook_check(job);
    println!(rt;
        "{name}: {} {} {} {}",
        job.len(),
        sum_of(job),
        checked % 256,
        checked / 256
    )
}

// The bytes of an offer, in hexadecimal digits.
fn print_record(rt: &impl Print, out: &[u8; 48]) -> io::Result<()> {
    for byte in &out[..40] {
        print!(rt; "{byte:02x}")?;
    }
    Ok(())
}

// A byte of the output before the call: none is like its neighbours.
fn marked(i: usize) -> u8 {
    put::filler_byte((i % 256) as u32, 9)
}

// Whether the bytes from a position on are as they were before the call.
fn kept(out: &[u8; 48], from: usize) -> &'static str {
    if (from..48).all(|i| out[i] == marked(i)) {
        "kept"
    } else {
        "changed"
    }
}

// The offer call with the first bytes of 48 as its output.
pub fn call(rt: &impl Print, job: &[u8], call: Call) -> io::Result<()> {
    let (reading, request, number, size) = call;
    let mut out: [u8; 48] = array::from_fn(marked);
    let result = stemhook::stemhook_offer(job, reading, request, number, &mut out[..size.min(48)]);
    print!(rt; " {reading} {request} {number} {size}: {result} ")?;
    if result == 0 {
        print_record(rt, &out)?;
        println!(rt; " {}", kept(&out, 40))
    } else {
        println!(rt; "{}", kept(&out, 0))
    }
}
