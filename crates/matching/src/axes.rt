// The axes of a face.
ghost use Rattle.std.specs.Prelude.{◌≡◌, ◌≤◌, cond};
ghost use Rattle.matching.specs.Axes.{first_tagged};
ghost use Rattle.matching.specs.Matching.{axis_count_of, axis_place, has_axis};

use font::font::{AxisInfo, FontInfo};

pub(crate) const WDTH: u32 = 0x7764_7468;

pub(crate) const WGHT: u32 = 0x7767_6874;

pub const SLNT: u32 = 0x736C_6E74;

pub(crate) const ITAL: u32 = 0x6974_616C;

// How many axes a face has: at most 16.
#[tactic(auto, unfolding(crate::specs::Matching::axis_count_of))]
pub(crate) fn axis_count(font: &FontInfo) -> usize
    ensures { result ≡ axis_count_of font.now }
{
    font.axis_count.min(16)
}

// The place of the first of `count` axes with the tag. One expression, as in font's `first_axis`: shared, it would be no plainer.
fn place_in(axes: &[AxisInfo; 16], count: usize, tag: u32) -> Option<usize>
    requires { count ≤ 16 }
    ensures { result ≡ first_tagged axes.now count tag }
{
    axes[..count].iter().position(|axis| axis.tag == tag)
}

// The place of a face's first axis with the tag.
#[tactic(auto, using(crate::proofs::Gathered::axes_few), unfolding(crate::specs::Matching::has_axis, crate::specs::Matching::axis_place, crate::specs::Matching::axis_at, crate::specs::Axes::first_tagged))]
pub(crate) fn axis_place(font: &FontInfo, tag: u32) -> Option<usize>
    ensures { result ≡ cond (has_axis font.now tag) (Some (axis_place font.now tag)) None }
{
    place_in(&font.axes, axis_count(font), tag)
}

// Whether a face has an axis with the tag.
pub(crate) fn has_axis(font: &FontInfo, tag: u32) -> bool
    ensures { result ≡ has_axis font.now tag }
{
    axis_place(font, tag).is_some()
}
