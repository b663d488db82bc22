// The lines of a job, written to standard output.
ghost use Rattle.std.specs.Prelude.{◌≡◌, IfOk};
ghost use Rattle.output.specs.Lines.{checked_under};
ghost use Rattle.query.specs.Job.{checked_in};

use crate::faces::Index;
use crate::words;
use font::refusal::Refusal;
use font::slant;
use query::answer::Answer;
use query::cursor::Cursor;
use query::job::Refused;
use query::{call, job};
use std::io;

// The most requests that a job has.
const MOST_REQUESTS: u32 = 256;

// One more than the most offers that a request can ask for.
const PAST_MOST: u32 = 65536;

// The line of an offer.
fn print_offer(rt: &impl Print, request: u32, answer: Answer, indexed: bool) -> io::Result<()> {
    let Answer {
        offer,
        synthesis,
        charmap_index,
    } = answer;
    print!(rt; "{request} {} {}", offer.family, offer.place)?;
    rt.write_all(&words::embolden_word(synthesis.embolden))?;
    words::print_skew(rt, synthesis.skew)?;
    if indexed {
        print!(rt; " {}", Index(charmap_index))?;
    }
    words::print_settings(rt, synthesis)?;
    rt.write_all(b"\n")
}

// The lines of a request: a fresh cursor is stepped to the end of the list.
fn print_request(
    rt: &impl Print,
    job: &[u8],
    reading: u32,
    request: u32,
    indexed: bool,
) -> io::Result<()> {
    let mut cursor = Cursor::new(request);
    for _ in 0..PAST_MOST {
        let step = cursor.step(job, reading);
        let Ok(Some(answer)) = step.answer else {
            return Ok(());
        };
        print_offer(rt, request, answer, indexed)?;
        cursor = step.cursor;
    }
    Ok(())
}

// Whether an accepted job has the request.
fn has_request(job: &[u8], request: u32) -> bool {
    !matches!(
        call::offer_at(job, 0, request, PAST_MOST),
        Err(Refusal::NoRequest)
    )
}

fn request_count(job: &[u8]) -> u32 {
    (0..MOST_REQUESTS)
        .find(|request| !has_request(job, *request))
        .unwrap_or(MOST_REQUESTS)
}

// What the check call answers; where there is no such reading, the offer call's refusal, which is of no field.
fn checked_under(job: &[u8], reading: u32) -> Result<(), Refused>
    ensures { checked_in result ≡ checked_under job.now reading }
{
    if slant::is_reading(reading) {
        return job::check(job);
    }
    match call::offer_at(job, reading, 0, 0) {
        Ok(_) => unreachable!(),
        Err(refusal) => Err(Refused {
            refusal,
            position: 0,
        }),
    }
}

// Prints what section 7's program prints for a job under a reading, and where `indexed` the charmap index of each offer
// after its skew, a word that section 7's program does not print. Answers whether the job was refused, and where.
pub fn print_job(
    rt: &impl Print,
    job: &[u8],
    reading: u32,
    indexed: bool,
) -> io::Result<Result<(), Refused>>
    ensures { IfOk result (λ checked. checked_in checked ≡ checked_under job.now reading) }
{
    let checked = checked_under(job, reading);
    match checked {
        Ok(()) => {
            let count = request_count(job);
            println!(rt; "requests {count}")?;
            for request in 0..count {
                print_request(rt, job, reading, request, indexed)?;
            }
        }
        Err(refused) => println!(rt; "refused {refused}")?,
    }
    Ok(checked)
}
