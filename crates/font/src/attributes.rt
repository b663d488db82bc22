// Properties for specifying font matching attributes.
ghost use Rattle.std.specs.Prelude.{◌≡◌};
ghost use Rattle.font.specs.Attributes.{attributes_of, accepted_angle, accepted_style, accepted_attributes};

use crate::single;

// The angle of an oblique style, in degrees, or none stated. No `Option`: unstated is a kind of angle of its own, which ranks and
// synthesizes as 14 degrees.
#[derive(Clone, Copy)]
pub enum Angle {
    Unstated,
    Degrees(f32),
}

#[derive(Clone, Copy)]
pub enum FontStyle {
    Normal,
    Italic,
    Oblique(Angle),
}

#[derive(Clone, Copy)]
pub struct FontWidth {
    pub ratio: f32,
}

#[derive(Clone, Copy)]
pub struct FontWeight {
    pub value: f32,
}

#[derive(Clone, Copy)]
pub struct Attributes {
    pub width: FontWidth,
    pub style: FontStyle,
    pub weight: FontWeight,
}

impl FontWidth {
    pub const NORMAL: FontWidth = FontWidth { ratio: 1.0 };

    // The original's name, as that of a weight is: what is given is all of either type.
    pub fn new(ratio: f32) -> Self
        ensures { result.ratio ≡ ratio }
    {
        FontWidth { ratio }
    }
}

impl FontWeight {
    pub const NORMAL: FontWeight = FontWeight { value: 400.0 };

    pub const BOLD: FontWeight = FontWeight { value: 700.0 };

    pub fn new(value: f32) -> Self
        ensures { result.value ≡ value }
    {
        FontWeight { value }
    }
}

impl Attributes {
    pub const DEFAULT: Attributes = Attributes {
        width: FontWidth::NORMAL,
        style: FontStyle::Normal,
        weight: FontWeight::NORMAL,
    };

    pub fn new(width: FontWidth, style: FontStyle, weight: FontWeight) -> Self
        ensures { result ≡ attributes_of width.ratio style weight.value }
    {
        Attributes {
            width,
            style,
            weight,
        }
    }

    // Whether its numbers are accepted: the ratio 0 to 16, the angle and the weight finite.
    #[tactic(auto, unfolding(crate::specs::Attributes::accepted_attributes))]
    pub fn accepted(self) -> bool
        ensures { result ≡ accepted_attributes self }
    {
        single::is_ratio(self.width.ratio)
            && style_accepted(self.style)
            && single::is_finite(self.weight.value)
    }
}

// Whether the angle of a style, if it states one, is finite.
#[tactic(auto, unfolding(crate::specs::Attributes::accepted_style))]
pub(crate) fn style_accepted(style: FontStyle) -> bool
    ensures { result ≡ accepted_style style }
{
    match style {
        FontStyle::Oblique(angle) => angle_accepted(angle),
        FontStyle::Normal | FontStyle::Italic => true,
    }
}

#[tactic(auto, unfolding(crate::specs::Attributes::accepted_angle))]
fn angle_accepted(angle: Angle) -> bool
    ensures { result ≡ accepted_angle angle }
{
    match angle {
        Angle::Degrees(x) => single::is_finite(x),
        Angle::Unstated => true,
    }
}
