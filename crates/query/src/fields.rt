// The fields of a job. Each function takes the job and a position, and answers the refusal or the next position.
ghost use Rattle.std.specs.Prelude.{◌≡◌, ℕ, ◌^◌, ◌≤◌, ◌<◌, List, length, get_or};
ghost use Rattle.std.specs.Float.{binary32};
ghost use Rattle.std.specs.Float.Ieee.{of_bits};
ghost use Rattle.std.specs.Float.Ieee.Scale.{finite};
ghost use Rattle.font.specs.Single.{accepted_ratio};
ghost use Rattle.font.specs.Refusals.{number};
ghost use Rattle.query.specs.Reader.{field, ended, end_in, many};
ghost use Rattle.query.specs.Fields.{field_end, half, ratio, value, count, held_byte, face_number, mask, kind, spare_byte, spare_word, sized_file, font_number, font_file};
ghost use Rattle.query.specs.Values.{behind_file};

use crate::job::Refused;
use crate::sizes;
use font::collection::{font_count, is_collection};
use font::font::font_refusal;
use font::refusal::Refusal;
use font::{single, tables};

// A 32-bit number. The check knows the range of an array's element only where it is passed by value.
pub(crate) fn wide(x: u32) -> usize
    ensures { (result ≡ x) × (x < 2 ^ 32) }
{
    x as usize
}

// The byte at a position, or 0 past the end.
pub(crate) fn byte_at(job: &[u8], at: usize) -> u8
    ensures { result ≡ get_or job.now at 0 }
{
    job.get(at).copied().unwrap_or(0)
}

// A field of `size` bytes. Nothing refuses it but the end, which is tested as where its number is read: the compiler makes one test
// of the two.
pub(crate) fn bytes(job: &[u8], at: usize, size: usize) -> Result<usize, Refused>
    ensures { (v : List ℕ → ℕ → ℕ) → end_in result ≡ ended (field size v job.now at) }
{
    match job.len().checked_sub(size) {
        Some(last) if at <= last => Ok(at + size),
        _ => Err(Refused {
            refusal: Refusal::PastEnd,
            position: at,
        }),
    }
}

// A field of `size` bytes that is refused by `refusal` unless `ok`. The fields of the format below are one call each, under their
// names: a function for several would be told size and test again by each caller.
fn tested(job: &[u8], at: usize, size: usize, ok: bool, refusal: Refusal) -> Result<usize, Refused>
    ensures { end_in result ≡ field_end job.now at size ok (number refusal) }
{
    let next = bytes(job, at, size)?;
    if ok {
        Ok(next)
    } else {
        Err(Refused {
            refusal,
            position: at,
        })
    }
}

// `count` numbers of 16 bits, from a position in the job on. Nothing refuses one but the end.
pub(crate) fn halves(job: &[u8], at: usize, count: usize) -> Result<usize, Refused>
    requires { (at ≤ length job.now) × (count < 65536) }
    ensures { end_in result ≡ ended (many count half job.now at) }
{
    let fit = (job.len() - at) / 2;
    if fit < count {
        return Err(Refused {
            refusal: Refusal::PastEnd,
            position: at + 2 * fit,
        });
    }
    Ok(at + 2 * count)
}

// Whether the bits are those of a number: no infinity and no NaN. By the bits, since `from_bits` asks that they are no NaN's.
pub(crate) fn finite_bits(bits: u32) -> bool
    ensures { result ≡ finite (of_bits binary32 bits) }
{
    bits % 0x8000_0000 < 0x7F80_0000
}

// Whether the bits are those of a ratio of 0 to 16.
fn ratio_bits(bits: u32) -> bool
    ensures { result ≡ accepted_ratio (of_bits binary32 bits) }
{
    finite_bits(bits) && single::is_ratio(f32::from_bits(bits))
}

pub(crate) fn ratio(job: &[u8], at: usize) -> Result<usize, Refused>
    ensures { end_in result ≡ ended (ratio job.now at) }
{
    tested(
        job,
        at,
        4,
        ratio_bits(tables::u32_at(job, at)),
        Refusal::BadNumber,
    )
}

pub(crate) fn value(job: &[u8], at: usize) -> Result<usize, Refused>
    ensures { end_in result ≡ ended (value job.now at) }
{
    tested(
        job,
        at,
        4,
        finite_bits(tables::u32_at(job, at)),
        Refusal::BadNumber,
    )
}

pub(crate) fn count(job: &[u8], at: usize, limit: u16) -> Result<usize, Refused>
    ensures { end_in result ≡ ended (count limit job.now at) }
{
    tested(
        job,
        at,
        2,
        tables::u16_at(job, at) <= limit,
        Refusal::OverLimit,
    )
}

pub(crate) fn held(job: &[u8], at: usize) -> Result<usize, Refused>
    ensures { end_in result ≡ ended (held_byte job.now at) }
{
    tested(job, at, 1, byte_at(job, at) <= 1, Refusal::NotHeld)
}

// The number of a face, of which the job has `faces`.
pub(crate) fn face_number(job: &[u8], at: usize, faces: u16) -> Result<usize, Refused>
    ensures { end_in result ≡ ended (face_number faces job.now at) }
{
    tested(job, at, 2, tables::u16_at(job, at) < faces, Refusal::NoFace)
}

pub(crate) fn mask(job: &[u8], at: usize) -> Result<usize, Refused>
    ensures { end_in result ≡ ended (mask job.now at) }
{
    tested(job, at, 1, byte_at(job, at) <= 7, Refusal::Unknown)
}

pub(crate) fn kind(job: &[u8], at: usize) -> Result<usize, Refused>
    ensures { end_in result ≡ ended (kind job.now at) }
{
    tested(job, at, 1, byte_at(job, at) <= 3, Refusal::Unknown)
}

// A spare field is zero: all its bits are clear.
pub(crate) fn spare_byte(job: &[u8], at: usize) -> Result<usize, Refused>
    ensures { end_in result ≡ ended (spare_byte job.now at) }
{
    tested(job, at, 1, byte_at(job, at) == 0, Refusal::Unknown)
}

pub(crate) fn spare_word(job: &[u8], at: usize) -> Result<usize, Refused>
    ensures { end_in result ≡ ended (spare_word job.now at) }
{
    tested(job, at, 4, tables::u32_at(job, at) == 0, Refusal::Unknown)
}

// What stands behind a font file: the number of its font, and where its face ends.
#[derive(Clone, Copy)]
pub(crate) struct Behind {
    pub number: u16,
    pub next: usize,
}

// What stands behind a file that ends at `end`. A lone font has no number there; it is 0.
pub(crate) fn behind_file(job: &[u8], end: usize, file: &[u8]) -> Behind
    requires { end < 2 ^ 63 }
    ensures { result ≡ behind_file job.now end file.now }
{
    if is_collection(file) {
        return Behind {
            number: tables::u16_at(job, end),
            next: end + sizes::FONT_NUMBER,
        };
    }
    Behind {
        number: 0,
        next: end,
    }
}

// The font number behind a file that ends at `end` and has its 12 header bytes. The file's length stands at `place`.
fn font_number(job: &[u8], end: usize, file: &[u8], place: usize) -> Result<usize, Refused>
    requires { 12 ≤ length file.now }
    ensures { end_in result ≡ ended (font_number place file.now job.now end) }
{
    if is_collection(file) {
        let below = (tables::u16_at(job, end) as u32) < font_count(file);
        return tested(job, end, sizes::FONT_NUMBER, below, Refusal::NoFont);
    }
    Ok(end)
}

// A font's length and bytes: one field, placed at its length.
fn sized_file(job: &[u8], at: usize) -> Result<usize, Refused>
    ensures { end_in result ≡ ended (sized_file job.now at) }
{
    let start = bytes(job, at, 4)?;
    let size = tables::u32_at(job, at) as usize;
    bytes(job, start, size).map_err(|why| Refused {
        refusal: why.refusal,
        position: at,
    })
}

// A font's length and bytes, and a collection's font number. A refusal that is not the number's is placed at the length.
pub(crate) fn font_file(job: &[u8], at: usize) -> Result<usize, Refused>
    ensures { end_in result ≡ ended (font_file job.now at) }
{
    let end = sized_file(job, at)?;
    let file = &job[at + 4..end];
    if file.len() < 12 {
        return Err(Refused {
            refusal: Refusal::BadDirectory,
            position: at,
        });
    }
    let next = font_number(job, end, file, at)?;
    let behind = behind_file(job, end, file);
    match font_refusal(file, behind.number) {
        Ok(()) => Ok(next),
        Err(refusal) => Err(Refused {
            refusal,
            position: at,
        }),
    }
}
