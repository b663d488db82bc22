// Standard input, read into a space of a fixed size.
#![tactic(auto)]

ghost use Rattle.std.specs.Prelude.{◌≤◌, length, IfOk};

use std::io;
use std::io::Read;

// Reads standard input to its end, or until the space is full. Answers how many bytes were read.
// A loop over reads: std's calls to the end of a reader want a `Vec`, or the length beforehand.
pub fn read_full(rt: &impl Input, space: &mut [u8]) -> io::Result<usize>
    ensures { IfOk result (λ n. n ≤ length space.new) }
{
    let mut reader = rt.reader();
    let mut n = 0;
    while n < space.len() {
        let more = reader.read(&mut space[n..])?;
        if more == 0 {
            break;
        }
        n += more;
    }
    Ok(n)
}
