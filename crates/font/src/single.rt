// Single-precision numbers: comparison, rounding and truncation.
ghost use Rattle.std.specs.Prelude.{◌≡◌, false};
ghost use Rattle.std.specs.Float.Ieee.Scale.{finite};
ghost use Rattle.std.specs.Float.Ieee.{to_signed, to_bits, round};
ghost use Rattle.std.specs.Float.{binary32};
ghost use Rattle.font.specs.Single.{order_key, fixed_to_single, whole_percent, accepted_ratio};

use std::num::{saturating_f32_to_i8, saturating_f32_to_u32};

// Whether x is a number: no infinity and no NaN.
#[tactic(auto, using(crate::proofs::Floats::is_finite))]
pub(crate) fn is_finite(x: f32) -> bool
    ensures { result ≡ finite x }
{
    x.is_finite()
}

// The order number raised by 2^31, so that it is never negative; 0 for a NaN.
#[tactic(auto, using(crate::proofs::OrderKey::of_high_bits), unfolding(crate::specs::Single::order_key, crate::specs::Single::key_of_bits))]
pub fn order_number(x: f32) -> u32
    ensures { result ≡ order_key x }
{
    if x.is_nan() {
        return 0;
    }
    let bits = x.to_bits();
    if bits < 0x8000_0000 {
        0x8000_0000 + bits
    } else {
        bits.wrapping_neg()
    }
}

// The bits of the single nearest to a magnitude of 65536ths, ties to even.
#[tactic(auto, using(crate::proofs::Fixed::of_magnitude))]
fn nearest_bits(magnitude: u32) -> u32
    ensures { result ≡ to_bits binary32 (round binary32 false magnitude 65536) }
{
    if magnitude == 0 {
        return 0;
    }
    // By the leading zeros, a form of the code that docs/COVERAGE.md promises: std's conversions do without.
    // The magnitude's 32 digits from its highest on: 24 are kept, and 8 decide how these round.
    let zeros = magnitude.leading_zeros();
    let digits = magnitude << zeros;
    let significand = digits / 256;
    // 1 where the 8 digits are more than a half, or a half after an odd significand.
    let up = (digits % 256 + 127 + significand % 2) / 256;
    // The significand's leading digit adds the last 1 to the exponent's field.
    (141 - zeros) * 0x80_0000 + significand + up
}

// The single nearest to n/65536, where n is the two's complement of 32 bits.
#[tactic(auto, using(crate::proofs::Fixed::of_sign))]
pub(crate) fn fixed_to_single(n: u32) -> f32
    ensures { result ≡ fixed_to_single n }
{
    if n < 0x8000_0000 {
        f32::from_bits(nearest_bits(n))
    } else {
        -f32::from_bits(nearest_bits(n.wrapping_neg()))
    }
}

// The ratio times 100, rounded once to single, without its fraction: held to 0 to 2^32 - 1, and 0 for a NaN.
#[tactic(auto, using(crate::proofs::Floats::literals), unfolding(crate::specs::Single::whole_percent))]
pub fn whole_percent(ratio: f32) -> u32
    ensures { result ≡ whole_percent ratio }
{
    saturating_f32_to_u32(ratio * 100.0)
}

// x without its fraction, held to -128 to 127; 0 for a NaN.
pub fn truncate_to_i8(x: f32) -> i8
    ensures { result ≡ to_signed 7 x }
{
    saturating_f32_to_i8(x)
}

// Whether x is a width ratio that is accepted: 0 to 16.
#[tactic(auto, using(crate::proofs::Floats::literals), unfolding(crate::specs::Single::accepted_ratio))]
pub fn is_ratio(x: f32) -> bool
    ensures { result ≡ accepted_ratio x }
{
    0.0 <= x && x <= 16.0
}
