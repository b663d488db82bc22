// The job, and the check call.
ghost use Rattle.std.specs.Prelude.{◌≡◌, ◌≤◌, length};
ghost use Rattle.query.specs.Sizes.{most_bytes};
ghost use Rattle.query.specs.Job.{check_job, checked_in};
ghost use Rattle.query.specs.Demands.{Demands};
ghost use Rattle.query.specs.Positions.{asked_in, walk_in, Requested, SectionsAnswer, WalkAnswer};

use crate::fields::wide;
use crate::sections::read_section;
use crate::{entries, sizes};
use font::refusal::Refusal;
use font::tables;
use std::error::Error;
use std::fmt;

// Why a job is refused, and the position of the field.
#[derive(Clone, Copy, Debug, PartialEq, Eq)]
pub struct Refused {
    pub refusal: Refusal,
    pub position: usize,
}

impl fmt::Display for Refused {
    fn fmt<W: fmt::Write>(&self, f: &mut fmt::Formatter<W>) -> fmt::Result {
        write!(f, "{} {}", self.refusal, self.position)
    }
}

impl Error for Refused {}

// Of an accepted job where its overrides begin, and where the asked request begins, if it has that.
#[derive(Clone, Copy)]
pub(crate) struct Walked {
    pub overrides: usize,
    pub request: Option<usize>,
}

// The requests, and nothing after them. Answers where the asked one begins, if there is one.
fn requests(job: &[u8], at: usize, asked: usize) -> Result<Option<usize>, Refused>
    requires { length job.now ≤ most_bytes }
    ensures { Requested job.now at asked (asked_in result) }
{
    let mut place = [0u32; 1];
    let request = |at| entries::request(job, at);
    let position = read_section(job, at, sizes::MOST_REQUESTS, request, asked, &mut place)?;
    if position < job.len() {
        return Err(Refused {
            refusal: Refusal::BytesLeft,
            position,
        });
    }
    if asked < tables::u16_at(job, at) as usize {
        Ok(Some(wide(place[0])))
    } else {
        Ok(None)
    }
}

// The four sections, and nothing after them. The table gets the positions of the families, as far as it has room.
fn whole(job: &[u8], families: &mut [u32], asked: usize) -> Result<Walked, Refused>
    requires { length job.now ≤ most_bytes }
    ensures { SectionsAnswer job.now (walk_in result) families.old families.new asked }
{
    let face = |at| entries::face(job, at);
    let overrides = read_section(job, 0, sizes::MOST_FACES, face, 0, &mut [])?;
    let faces = tables::u16_at(job, 0);
    let override_entry = |at| entries::override_entry(job, at, faces);
    let second = read_section(
        job,
        overrides,
        sizes::MOST_OVERRIDES,
        override_entry,
        0,
        &mut [],
    )?;
    let family = |at| entries::family(job, at, faces);
    let third = read_section(job, second, sizes::MOST_FAMILIES, family, 0, families)?;
    let request = requests(job, third, asked)?;
    Ok(Walked { overrides, request })
}

// The first refusal of a job, reading left to right; or where an accepted job has its entries.
pub(crate) fn walk(job: &[u8], families: &mut [u32], asked: usize) -> Result<Walked, Refused>
    ensures { WalkAnswer job.now (walk_in result) families.old families.new asked }
{
    if sizes::MOST_BYTES < job.len() {
        return Err(Refused {
            refusal: Refusal::Overlong,
            position: 0,
        });
    }
    whole(job, families, asked)
}

// The first refusal of a job, reading left to right, with its field's position.
pub fn check(job: &[u8]) -> Result<(), Refused>
    ensures value { checked_in result ≡ check_job job.now }
    ensures demands { Demands job.now }
{
    walk(job, &mut [], 0)?;
    Ok(())
}
