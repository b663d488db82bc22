// Reads a list of jobs from standard input, each after its length, and prints for each what the program `offers` prints,
// with the charmap index of each offer: under reading 0, and then under reading 1.
//
// The files `stdin` and `stdout` of this crate are what `cargo run --release -- jobs --out DIR` writes in
// `rust/reference`: the list, and the offers of the original sources for it; refusals are those of `rust/plain`, which
// are compared with the original's where it has any. `rust/README.md` says what both hold, in "The list of jobs".
#![tactic(auto)]

ghost use Rattle.std.specs.Prelude.{◌^◌, ◌<◌, ◌≤◌, IfOk};

use font::tables;
use output::lines;
use std::io;
use std::io::Read;

// The lines of the job that the bytes start with. Answers how many bytes it takes, with its length.
fn print_case(rt: &impl Print, list: &[u8]) -> io::Result<usize>
    ensures { IfOk result (λ n. (4 ≤ n) × (n < 2 ^ 33)) }
{
    let end = 4 + tables::u32_at(list, 0) as usize;
    if end <= list.len() {
        let job = &list[4..end];
        for reading in [0, 1] {
            let _ = lines::print_job(rt, job, reading, true)?;
        }
    }
    Ok(end)
}

// The position goes on by what each job takes. `match_cases` has the same loop and `main`: shared, they would take a closure that
// prints, and be no shorter.
fn print_list(rt: &impl Print, list: &[u8]) -> io::Result<()> {
    let mut at: usize = 0;
    while at < list.len() {
        at += print_case(rt, &list[at..])?;
    }
    Ok(())
}

// A list has at most 600,000 bytes: what lies past them is not read.
fn main(rt: HostRuntime) -> io::Result<()> {
    let mut list = Vec::new(rt.alloc());
    rt.reader().take(600000).read_to_end(&mut list)?;
    print_list(&rt, &list)
}
