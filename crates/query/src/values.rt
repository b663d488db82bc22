// Numbers, styles and attributes at a position of an accepted job.
ghost use Rattle.std.specs.Prelude.{◌≡◌, ◌+◌, ◌^◌, ◌<◌};
ghost use Rattle.query.specs.Values.{number_at, style_at, attributes_at};

use crate::{fields, sizes};
use font::attributes::{Angle, Attributes, FontStyle, FontWeight, FontWidth};
use font::tables;

// The number whose bits lie at a position, or 0 where they are of none.
#[tactic(auto, using(font::proofs::FiniteBits::finite_no_nan), unfolding(crate::specs::Values::number_at))]
pub(crate) fn number_at(job: &[u8], at: usize) -> f32
    ensures { result ≡ number_at job.now at }
{
    let bits = tables::u32_at(job, at);
    if fields::finite_bits(bits) {
        f32::from_bits(bits)
    } else {
        0.0
    }
}

// Kind and angle. Positions are bounded as in `faces`.
#[tactic(auto, unfolding(crate::specs::Values::style_at, crate::specs::Entries::style_of_kind))]
pub(crate) fn style_at(job: &[u8], at: usize) -> FontStyle
    requires { at < 2 ^ 63 }
    ensures { result ≡ style_at job.now at }
{
    match fields::byte_at(job, at) {
        0 => FontStyle::Normal,
        1 => FontStyle::Italic,
        3 => FontStyle::Oblique(Angle::Degrees(number_at(job, at + 1))),
        _ => FontStyle::Oblique(Angle::Unstated),
    }
}

// Ratio, style and weight of a request.
#[tactic(auto, unfolding(crate::specs::Values::attributes_at))]
pub(crate) fn attributes_at(job: &[u8], at: usize) -> Attributes
    requires { at + 9 < 2 ^ 63 }
    ensures { result ≡ attributes_at job.now at }
{
    let width = FontWidth::new(number_at(job, at));
    let style = style_at(job, at + sizes::ATTRIBUTES_STYLE);
    let weight = FontWeight::new(number_at(job, at + sizes::ATTRIBUTES_WEIGHT));
    Attributes::new(width, style, weight)
}
