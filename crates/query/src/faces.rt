// The font file of a face of an accepted job, its overrides, and the face that an offer names.
ghost use Rattle.std.specs.Prelude.{◌≡◌, ◌+◌, ◌^◌, ◌≤◌, ◌<◌};
ghost use Rattle.font.specs.Slant.{reading_number};
ghost use Rattle.font.specs.Tables.{u16_at};
ghost use Rattle.query.specs.Sizes.{most_overrides};
ghost use Rattle.query.specs.View.{overridden_by};
ghost use Rattle.query.specs.Values.{file_at, file_end, face_at, given_at, pairs_at, override_at, override_end};
ghost use Rattle.query.specs.CallTables.{FontTaken, after_pairs, FaceOverridden, OfferedFace};

use crate::values::{number_at, style_at};
use crate::{fields, sizes};
use font::attributes::{FontWeight, FontWidth};
use font::font::{FontInfo, read_font};
use font::overrides::FontInfoOverride;
use font::slant::Reading;
use font::{overrides, tables};

// The font file of the face whose entry lies at a position. A position is a number, as in the layout: that it lies below a power of
// two is asked where its sum with a length is made, and the powers differ as the sums do.
pub(crate) fn file_at(job: &[u8], at: usize) -> &[u8]
    requires { at < 2 ^ 63 }
    ensures { result.now ≡ file_at job.now at }
{
    let size = tables::u32_at(job, at + 1) as usize;
    let start = (at + sizes::FACE_HEAD).min(job.len());
    let rest = &job[start..];
    &rest[..size.min(rest.len())]
}

// Where that file ends.
pub(crate) fn file_end(job: &[u8], at: usize) -> usize
    requires { at < 2 ^ 63 }
    ensures { (result ≡ file_end job.now at) × (result < at + 2 ^ 33) }
{
    at + sizes::FACE_HEAD + tables::u32_at(job, at + 1) as usize
}

// Ratio, style and weight of the override at a position, by its mask.
pub(crate) fn given_at(job: &[u8], at: usize) -> FontInfoOverride
    requires { at < 2 ^ 62 }
    ensures { result ≡ given_at job.now at }
{
    let mask = fields::byte_at(job, at + sizes::OVERRIDE_MASK);
    let ratio = number_at(job, at + sizes::OVERRIDE_RATIO);
    let style = style_at(job, at + sizes::OVERRIDE_STYLE);
    let weight = number_at(job, at + sizes::OVERRIDE_WEIGHT);
    FontInfoOverride {
        width: (mask % 2 == 1).then_some(FontWidth::new(ratio)),
        style: (mask / 2 % 2 == 1).then_some(style),
        weight: (mask / 4 % 2 == 1).then_some(FontWeight::new(weight)),
    }
}

// The position after an override.
#[tactic(auto, unfolding(crate::specs::Values::override_end))]
pub(crate) fn override_end(job: &[u8], at: usize) -> usize
    requires { at < 2 ^ 62 }
    ensures { (result ≡ override_end job.now at) × (result ≤ at + 65536) }
{
    at + sizes::OVERRIDE_HEAD
        + sizes::PAIR * fields::byte_at(job, at + sizes::OVERRIDE_COUNT) as usize
}

// A face after `count` pairs, the first of which lies at `at`. Of its axes as `overrides::with_default` has it.
fn with_pairs(job: &[u8], at: usize, count: usize, font: FontInfo) -> FontInfo
    requires { (at < 2 ^ 63) × (count ≤ 255) × (font.axis_count ≤ 16) }
    ensures { result ≡ after_pairs (pairs_at job.now at count) count font }
{
    let mut set = font;
    for k in 0..count {
        let place = at + sizes::PAIR * k;
        let tag = tables::u32_at(job, place);
        set = overrides::with_default(set, tag, number_at(job, place + 4));
    }
    set
}

// A face after the override at a position. Of its axes as `with_pairs` has it.
fn override_face(job: &[u8], at: usize, font: FontInfo) -> FontInfo
    requires { (at < 2 ^ 62) × (font.axis_count ≤ 16) }
    ensures { result ≡ overridden_by (override_at job.now at) font }
{
    let count = fields::byte_at(job, at + sizes::OVERRIDE_COUNT) as usize;
    let paired = with_pairs(job, at + sizes::OVERRIDE_HEAD, count, font);
    let attributes = overrides::override_attributes(font.attributes, given_at(job, at));
    FontInfo {
        attributes,
        ..paired
    }
}

// The face of a number, as its file states it, after those of the `count` overrides from `at` on that name it.
fn overridden(job: &[u8], at: usize, count: usize, number: usize, font: FontInfo) -> FontInfo
    requires { (at < 2 ^ 32) × (count ≤ most_overrides) × (font.axis_count ≤ 16) }
    ensures { FaceOverridden job.now at count number font result }
{
    let mut changed = font;
    let mut place = at;
    for _ in 0..count {
        if tables::u16_at(job, place) as usize == number {
            changed = override_face(job, place, changed);
        }
        place = override_end(job, place);
    }
    changed
}

// The face of a number whose entry lies at `entry`, after the overrides, whose section lies at `section`.
pub(crate) fn offered_face(
    job: &[u8],
    reading: Reading,
    section: usize,
    entry: usize,
    number: usize,
) -> FontInfo
    requires section_bound { (section < 2 ^ 31) × (entry < 2 ^ 62) × (u16_at job.now section ≤ most_overrides) }
    requires taken { FontTaken (face_at job.now entry).font }
    ensures { OfferedFace (reading_number reading) job.now section entry number result }
{
    let file = file_at(job, entry);
    let behind = fields::behind_file(job, file_end(job, entry), file);
    let font = read_font(file, reading, behind.number);
    let count = tables::u16_at(job, section) as usize;
    overridden(job, section + 2, count, number, font)
}
