// What an offer call loads of a job: a row for each face, after its overrides, and where each family begins.
ghost use Rattle.std.specs.Prelude.{◌≡◌, ℕ, ◌^◌, ◌≤◌, ◌<◌, length, get_or, true};
ghost use Rattle.font.specs.Slant.{reading_number};
ghost use Rattle.font.specs.Font.{refusal_under};
ghost use Rattle.query.specs.Sizes.{most_overrides, most_families};
ghost use Rattle.query.specs.Values.{file_at, file_end, number_behind};
ghost use Rattle.query.specs.Positions.{walk_in};
ghost use Rattle.query.specs.CallTables.{row_at, row_overridden, FacesLie, RowsAt, RowsOverridden, nowhere, Room, LoadAnswer};

use crate::faces::{file_at, file_end, given_at, override_end};
use crate::job::{Refused, Walked};
use crate::{fields, job};
use font::font::read_stated;
use font::overrides::FontInfoOverride;
use font::slant::Reading;
use font::{single, tables};
use matching::axes;
use matching::matching::style_number;
use matching::rows::Row;

// A family's number: where its entry begins and, once its offers are counted, this times one more than there are.
// Packed: the table lies on an offer call's stack, and with two numbers a family 256 bytes more would leave little room there.
pub(crate) const COUNT_STEP: u32 = 0x200_0000;

// Past the end of every job: where the families begin that a job does not have. A place past the end has no family, so it needs no
// test of its own, and 64 options would take twice the room.
pub(crate) const NOWHERE: u32 = COUNT_STEP - 1;

// The row of the face whose entry lies at a position, before its overrides, by its file and font number. Positions are bounded as in
// `faces`, and that the file is not refused is asked as by font's `read_font`.
fn row_at(job: &[u8], reading: Reading, at: usize, file: &[u8], number: u16) -> Row
    requires at_bound { (at < 2 ^ 30) × (file.now ≡ file_at job.now at) × (number ≡ number_behind job.now (file_end job.now at) file.now) }
    requires number_value { refusal_under (reading_number reading) file.now number ≡ 0 }
    ensures { result ≡ row_at (reading_number reading) job.now at }
{
    let held = u32::from(fields::byte_at(job, at) == 1);
    let stated = read_stated(file, reading, number, axes::SLNT);
    let slant = u32::from(stated.has_axis);
    Row::new(stated.attributes, 4 * (at as u32) + (2 * held + slant))
}

// The rows of `count` faces, whose entries lie one after another from `at` on.
fn load_faces(job: &[u8], reading: Reading, at: usize, count: usize, rows: &mut [Row])
    requires { FacesLie job.now at count × (count ≤ length rows.old) }
    ensures { RowsAt (reading_number reading) job.now at count rows.old rows.new }
{
    let mut place = at;
    for row in &mut rows[..count] {
        let file = file_at(job, place);
        let behind = fields::behind_file(job, file_end(job, place), file);
        *row = row_at(job, reading, place, file, behind.number);
        place = behind.next;
    }
}

// A row after an override.
#[tactic(auto, unfolding(crate::specs::CallTables::row_overridden, crate::specs::CallTables::with_width, crate::specs::CallTables::with_style, crate::specs::CallTables::with_weight))]
fn override_row(row: Row, o: FontInfoOverride) -> Row
    ensures { result ≡ row_overridden o row }
{
    let mut changed = row;
    if let Some(width) = o.width {
        changed.percent = single::whole_percent(width.ratio);
        changed.ratio = single::order_number(width.ratio);
    }
    if let Some(style) = o.style {
        changed.style = style_number(style);
    }
    if let Some(weight) = o.weight {
        changed.weight = single::order_number(weight.value);
    }
    changed
}

// The `count` overrides from `at` on, in order, each on the row of the face that it names.
fn load_overrides(job: &[u8], at: usize, count: usize, rows: &mut [Row])
    requires { (at < 2 ^ 32) × (count ≤ most_overrides) }
    ensures { RowsOverridden job.now at count rows.old rows.new }
{
    let mut place = at;
    for _ in 0..count {
        let face = tables::u16_at(job, place) as usize;
        // By its index: what a write through `get_mut` leaves of the other rows is not proved.
        if face < rows.len() {
            rows[face] = override_row(rows[face], given_at(job, place));
        }
        place = override_end(job, place);
    }
}

// Checks a job, and loads what the offers look at under a reading: a row for each face, and where each family begins; and
// the asked request.
pub(crate) fn load(
    job: &[u8],
    reading: Reading,
    rows: &mut [Row],
    families: &mut [u32; 64],
    asked: usize,
) -> Result<Walked, Refused>
    requires room { Room job.now rows.old × (length families.old ≡ most_families) }
    requires by_index { (f : ℕ) → f < most_families → get_or families.old f 0 ≡ nowhere }
    ensures { LoadAnswer (reading_number reading) job.now (walk_in result) rows.new families.new asked }
{
    let walked = job::walk(job, families, asked)?;
    let faces = tables::u16_at(job, 0) as usize;
    load_faces(job, reading, 2, faces, &mut *rows);
    let section = walked.overrides;
    let count = tables::u16_at(job, section) as usize;
    load_overrides(job, section + 2, count, rows);
    Ok(walked)
}
