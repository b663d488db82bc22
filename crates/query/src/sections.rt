// A section of a job: a 16-bit count, and entries.
ghost use Rattle.std.specs.Prelude.{◌≡◌, ℕ, ◌-◌, ◌^◌, ◌<◌, List, Ok};
ghost use Rattle.query.specs.Sections.{Section, limit_of};
ghost use Rattle.query.specs.Positions.{NotesAt, KeptFrom, ReadsAs, RunEnds, SectionEnds};

use crate::fields;
use crate::job::Refused;
use font::tables;

// Notes the position of the i-th entry in a table of those from `first` on, if it has room for it.
fn note(table: &mut [u32], first: usize, i: usize, place: usize)
    requires { place < 2 ^ 32 }
    ensures { NotesAt first i place table.old table.new }
{
    if first <= i && i - first < table.len() {
        table[i - first] = place as u32;
    }
}

// `count` entries, one after another. The table gets the positions of those from `first` on, as far as it has room.
fn entry_run<F: Fn(usize) -> Result<usize, Refused>>(
    at: usize,
    count: usize,
    entry: F,
    first: usize,
    table: &mut [u32],
) -> Result<usize, Refused>
    requires callable { F.IsAlwaysCallable entry }
    requires begins { (p q : ℕ) → F.post entry p (Ok q) → p < 2 ^ 32 }
    ensures ends { (section : Section) (s : List ℕ) → ReadsAs section s (λ p x. F.post entry p x) → RunEnds section s at count first result table.new }
    ensures kept { KeptFrom (count - first) table.old table.new }
{
    let mut place = at;
    for i in 0..count {
        let next = entry(place)?;
        note(table, first, i, place);
        place = next;
    }
    Ok(place)
}

// A section at a position: the refusal, or the next position, with the positions of its entries as `entry_run` has them. Where none
// is wanted the table is empty: one loop serves all four sections.
pub(crate) fn read_section<F: Fn(usize) -> Result<usize, Refused>>(
    job: &[u8],
    at: usize,
    limit: u16,
    entry: F,
    first: usize,
    table: &mut [u32],
) -> Result<usize, Refused>
    requires callable { F.IsAlwaysCallable entry }
    requires begins { (p q : ℕ) → F.post entry p (Ok q) → p < 2 ^ 32 }
    ensures { (section : Section) → limit ≡ limit_of section → ReadsAs section job.now (λ p x. F.post entry p x) → SectionEnds section job.now at first result table.old table.new }
{
    let next = fields::count(job, at, limit)?;
    let entries = tables::u16_at(job, at) as usize;
    entry_run(next, entries, entry, first, table)
}
