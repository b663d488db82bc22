// Overrides of a face's attributes and axis defaults, and the refusals of calls on a face by value.
ghost use Rattle.std.specs.Prelude.{◌≡◌, ◌&&◌, ◌≤◌, eqb, length, position, take};
ghost use Rattle.std.specs.Float.Ieee.Scale.{finite};
ghost use Rattle.std.specs.List.{list_all};
ghost use Rattle.font.specs.Refusals.{refusal_in, checked};
ghost use Rattle.font.specs.Overrides.{overridden, set_default, with_axes, replaced_defaults, accepted_axis, accepted_override, accepted_pairs, refusal_of, face_refusal, apply_override, maybe_override_attributes};

use crate::attributes::{Attributes, FontStyle, FontWeight, FontWidth};
use crate::font::{AxisInfo, FontInfo};
use crate::refusal::Refusal;
use crate::{attributes, single};

// The attributes to put in place of a face's own.
#[derive(Clone, Copy)]
pub struct FontInfoOverride {
    pub width: Option<FontWidth>,
    pub style: Option<FontStyle>,
    pub weight: Option<FontWeight>,
}

// The attributes of a face after an override.
#[tactic(auto, unfolding(crate::specs::Overrides::overridden, crate::specs::Overrides::ratio_of, crate::specs::Overrides::style_of, crate::specs::Overrides::weight_of))]
pub fn override_attributes(own: Attributes, o: FontInfoOverride) -> Attributes
    ensures { result ≡ overridden own o }
{
    Attributes::new(
        o.width.unwrap_or(own.width),
        o.style.unwrap_or(own.style),
        o.weight.unwrap_or(own.weight),
    )
}

// The first axis with the tag: one expression, as in matching's `place_in`.
fn first_axis(axes: &[AxisInfo], tag: u32) -> Option<usize>
    ensures { result ≡ position (λ axis. eqb axis.tag tag) axes.now }
{
    axes.iter().position(|axis| axis.tag == tag)
}

// The face with the default of its first axis of that tag set, if there is one. At most 16 axes are asked of each face here, and of
// no type: a face by value may state more, and is refused for it.
#[tactic(auto, using(crate::proofs::Taken::tagged_default), unfolding(crate::specs::Overrides::with_axes, crate::specs::Overrides::axis_of, crate::specs::Overrides::with_default))]
pub fn with_default(mut font: FontInfo, tag: u32, value: f32) -> FontInfo
    requires { font.axis_count ≤ 16 }
    ensures { result ≡ with_axes font (set_default font.axes font.axis_count tag value) }
{
    if let Some(i) = first_axis(&font.axes[..font.axis_count], tag) {
        font.axes[i].default = value;
    }
    font
}

#[tactic(auto, unfolding(crate::specs::Overrides::accepted_axis))]
fn axis_accepted(axis: &AxisInfo) -> bool
    ensures { result ≡ accepted_axis axis.now }
{
    single::is_finite(axis.min) && single::is_finite(axis.default) && single::is_finite(axis.max)
}

fn axes_accepted(axes: &[AxisInfo]) -> bool
    ensures { result ≡ list_all accepted_axis axes.now }
{
    axes.iter().all(axis_accepted)
}

#[tactic(auto, unfolding(crate::specs::Overrides::accepted_override, crate::specs::Overrides::accepted_width_override, crate::specs::Overrides::accepted_style_override, crate::specs::Overrides::accepted_weight_override))]
fn attributes_override_accepted(o: FontInfoOverride) -> bool
    ensures { result ≡ accepted_override o }
{
    o.width.is_none_or(|w| single::is_ratio(w.ratio))
        && o.style.is_none_or(attributes::style_accepted)
        && o.weight.is_none_or(|w| single::is_finite(w.value))
}

// Whether the value of each pair is finite.
fn pairs_accepted(tags: &[u32], values: &[f32]) -> bool
    ensures { result ≡ list_all finite (take (length tags.now) values.now) }
{
    values
        .iter()
        .take(tags.len())
        .all(|x| single::is_finite(*x))
}

// Whether the numbers of an override and its pairs are accepted.
#[tactic(auto, using(crate::proofs::Taken::pairs_taken))]
fn override_accepted(o: FontInfoOverride, tags: &[u32], values: &[f32]) -> bool
    ensures { result ≡ (accepted_override o && accepted_pairs tags.now values.now) }
{
    attributes_override_accepted(o) && pairs_accepted(tags, values)
}

// Whether a call on a face by value is refused: for over 16 axes, and then for a number that is not accepted, of the face or
// of those given beside it.
#[tactic(auto, using(crate::proofs::Taken::face_accepted), unfolding(crate::specs::Overrides::refusal_of, crate::specs::Refusals::refusal_in, crate::specs::Refusals::number))]
fn refusal_of(font: FontInfo, given: bool) -> Result<(), Refusal>
    ensures { refusal_in result ≡ refusal_of font given }
{
    if 16 < font.axis_count {
        return Err(Refusal::OverLimit);
    }
    let axes = &font.axes[..font.axis_count];
    if font.attributes.accepted() && axes_accepted(axes) && given {
        Ok(())
    } else {
        Err(Refusal::BadNumber)
    }
}

// Whether a call on a face by value is refused.
#[tactic(auto, unfolding(crate::specs::Overrides::face_refusal))]
pub fn face_refusal(font: FontInfo) -> Result<(), Refusal>
    ensures { refusal_in result ≡ face_refusal font }
{
    refusal_of(font, true)
}

impl FontInfo {
    // The attributes that are present in the override replace the face's; then each pair sets the default of the first
    // axis with its tag. Of tags and values the shorter says how many pairs there are: two lists, since either may be the longer.
    #[tactic(auto, using(crate::proofs::Refusals::by_value, crate::proofs::Defaults::one_by_one, std::proofs::lemmas::Slice::Zip::zip_turn, std::proofs::lemmas::Slice::Zip::zip_end), unfolding(crate::specs::Overrides::apply_override, crate::specs::Overrides::with_override, crate::specs::Overrides::with_defaults, crate::specs::Overrides::with_axes, crate::specs::Overrides::pair_count, crate::specs::Refusals::refusal_in))]
    pub fn apply_override(
        self,
        o: FontInfoOverride,
        tags: &[u32],
        values: &[f32],
    ) -> Result<Self, Refusal>
        ensures { checked self result ≡ apply_override self o tags.now values.now }
    {
        refusal_of(self, override_accepted(o, tags, values))?;
        let mut font = self;
        for (tag, value) in tags.iter().zip(values) {
            font = with_default(font, *tag, *value);
        }
        font.attributes = override_attributes(self.attributes, o);
        Ok(font)
    }

    // Only attributes that equal the defaults are replaced.
    #[tactic(auto, using(crate::proofs::Refusals::by_value), unfolding(crate::specs::Overrides::maybe_override_attributes, crate::specs::Overrides::with_attributes))]
    pub fn maybe_override_attributes(self, given: Attributes) -> Result<Self, Refusal>
        ensures { checked self result ≡ maybe_override_attributes self given }
    {
        refusal_of(self, given.accepted())?;
        let attributes = replaced_defaults(self.attributes, given);
        Ok(FontInfo { attributes, ..self })
    }
}

#[tactic(auto, using(crate::proofs::Floats::literals), unfolding(crate::specs::Overrides::replaced_defaults, crate::specs::Overrides::is_normal))]
fn replaced_defaults(own: Attributes, given: Attributes) -> Attributes
    ensures { result ≡ replaced_defaults own given }
{
    let width = if own.width.ratio == 1.0 {
        given.width
    } else {
        own.width
    };
    let style = match own.style {
        FontStyle::Normal => given.style,
        style => style,
    };
    let weight = if own.weight.value == 400.0 {
        given.weight
    } else {
        own.weight
    };
    Attributes::new(width, style, weight)
}
