// Section 7's pairs and larger jobs, built here and run through the check call and the offer call.
//
// The file `stdout` of this crate is what `cargo run --release -- pairs --out DIR` writes in `rust/reference`: the plain
// reading's answers on the same jobs, which it builds for itself under the same names (`rust/README.md`, "The pairs").
// A line for each job, and one for each call on it:
//
//     NAME: LENGTH SUM REFUSAL POSITION
//      READING REQUEST NUMBER SIZE: RESULT HEX kept
//
// with SUM from the job's bytes, SIZE the bytes of output, and HEX the 40 bytes, only where RESULT is 0. `kept` says that
// every other byte of the 48 that the output is a part of is as it was before the call, and `changed` that one is not.
//
// Refusal 17 is not among them: no job here has more than 16 MiB.
#![tactic(auto)]

mod fonts;
mod jobs;
mod print;
mod put;

use print::Call;
use std::io;

const SIXTEEN: u32 = 0x4180_0000;

// Outputs of four lengths, then the offers of each request and what lies past them.
const SMALL: [Call; 19] = [
    (0, 0, 0, 0),
    (0, 0, 0, 39),
    (0, 0, 0, 40),
    (0, 0, 0, 41),
    (0, 0, 1, 40),
    (0, 0, 2, 40),
    (0, 0, 3, 40),
    (0, 0, 4_294_967_295, 40),
    (0, 1, 0, 40),
    (0, 1, 1, 40),
    (0, 1, 5, 40),
    (0, 1, 6, 40),
    (0, 2, 0, 40),
    (0, 3, 0, 40),
    (0, 3, 1, 40),
    (0, 3, 2, 40),
    (0, 4, 0, 40),
    (0, 4, 0, 39),
    (0, 4_294_967_295, 0, 40),
];

// Offers under reading 1, and readings that there are not.
const SLANTED: [Call; 16] = [
    (1, 0, 0, 40),
    (1, 0, 1, 40),
    (1, 0, 2, 40),
    (1, 0, 3, 40),
    (1, 1, 0, 40),
    (1, 1, 1, 40),
    (1, 1, 5, 40),
    (1, 3, 0, 40),
    (1, 3, 1, 40),
    (1, 4, 0, 40),
    (2, 0, 0, 40),
    (2, 0, 0, 39),
    (2, 4, 0, 40),
    (256, 0, 0, 40),
    (65_537, 0, 0, 40),
    (4_294_967_295, 0, 0, 40),
];

// The first two offers of the first request.
const FIRST: [Call; 2] = [(0, 0, 0, 40), (0, 0, 1, 40)];

// The last offer of the second request, which names the family twice, and one more.
const LAST: [Call; 2] = [(0, 1, 85, 40), (0, 1, 86, 40)];

const LARGE: [Call; 16] = [
    (0, 0, 0, 40),
    (0, 1, 0, 40),
    (0, 1, 1, 40),
    (0, 3, 0, 40),
    (0, 3, 631, 40),
    (0, 3, 632, 40),
    (0, 127, 5, 40),
    (0, 254, 7, 40),
    (0, 254, 8, 40),
    (0, 255, 631, 40),
    (0, 255, 632, 40),
    (0, 256, 0, 40),
    (1, 3, 631, 40),
    (1, 255, 631, 40),
    (1, 256, 0, 40),
    (2, 0, 0, 40),
];

fn calls(rt: &impl Print, job: &[u8], asked: &[Call]) -> io::Result<()> {
    for call in asked {
        print::call(rt, job, *call)?;
    }
    Ok(())
}

// The check call, and then offer calls.
fn lines(rt: &impl Print, name: &str, job: &[u8], asked: &[Call]) -> io::Result<()> {
    print::check(rt, name, job)?;
    calls(rt, job, asked)
}

fn zeros(rt: &impl Print) -> io::Result<()> {
    let job = [0u8; 9];
    lines(rt, "no bytes", &[], &[(0, 0, 0, 40), (2, 0, 0, 40)])?;
    lines(rt, "eight zero bytes", &job[..8], &[(0, 0, 0, 40)])?;
    lines(
        rt,
        "nine zero bytes",
        &job,
        &[(0, 0, 0, 40), (0, 0, 0, 39), (2, 0, 0, 40), (2, 0, 0, 39)],
    )
}

fn small(rt: &(impl Print + AllocGlobal)) -> io::Result<()> {
    let job = jobs::small(rt.alloc(), 0, 3, jobs::ONE)?;
    lines(rt, "small", &job, &SMALL)?;
    calls(rt, &job, &SLANTED)
}

fn axes(rt: &(impl Print + AllocGlobal)) -> io::Result<()> {
    let job = jobs::small(rt.alloc(), 16, 3, jobs::ONE)?;
    lines(rt, "16 axes", &job, &FIRST)?;
    let job = jobs::small(rt.alloc(), 17, 3, jobs::ONE)?;
    lines(rt, "17 axes", &job, &FIRST)
}

fn places(rt: &(impl Print + AllocGlobal)) -> io::Result<()> {
    let job = jobs::small(rt.alloc(), 0, 64, jobs::ONE)?;
    lines(rt, "64 places", &job, &FIRST)?;
    calls(rt, &job, &LAST)?;
    let job = jobs::small(rt.alloc(), 0, 65, jobs::ONE)?;
    lines(rt, "65 places", &job, &FIRST)?;
    calls(rt, &job, &LAST)
}

fn ratios(rt: &(impl Print + AllocGlobal)) -> io::Result<()> {
    let job = jobs::small(rt.alloc(), 0, 3, SIXTEEN)?;
    lines(rt, "ratio 16", &job, &FIRST)?;
    let job = jobs::small(rt.alloc(), 0, 3, SIXTEEN + 1)?;
    lines(rt, "ratio over 16", &job, &FIRST)
}

fn main(rt: HostRuntime) -> io::Result<()> {
    zeros(&rt)?;
    small(&rt)?;
    axes(&rt)?;
    places(&rt)?;
    ratios(&rt)?;
    lines(&rt, "long font", &jobs::long(rt.alloc())?, &FIRST)?;
    lines(&rt, "large", &jobs::large(rt.alloc())?, &LARGE)
}
