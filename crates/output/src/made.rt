// Faces and attributes that test programs make.
ghost use Rattle.std.specs.Prelude.{◌≡◌, ◌≤◌, length, take};
ghost use Rattle.font.specs.Single.{single};
ghost use Rattle.font.specs.Attributes.{attributes_of};

use font::attributes::{Angle, Attributes, FontStyle, FontWeight, FontWidth};
use font::font::{AxisInfo, FontInfo};

pub const SLNT: u32 = 0x736C_6E74;

pub const WDTH: u32 = 0x7764_7468;

pub const WGHT: u32 = 0x7767_6874;

pub fn axis(tag: u32, min: f32, default: f32, max: f32) -> AxisInfo
    ensures { result ≡ record { tag = tag; min = min; default = default; max = max } }
{
    AxisInfo {
        tag,
        min,
        default,
        max,
    }
}

// A face whose array of axes begins with those given.
pub fn face(attributes: Attributes, first: &[AxisInfo], axis_count: usize) -> FontInfo
    requires { length first.now ≤ 16 }
    ensures attributes { result.attributes ≡ attributes }
    ensures axes { take (length first.now) result.axes ≡ first.now }
    ensures axis_count { result.axis_count ≡ axis_count }
{
    let mut axes = [AxisInfo::NONE; 16];
    axes[..first.len()].copy_from_slice(first);
    FontInfo {
        attributes,
        axes,
        axis_count,
        ..FontInfo::EMPTY
    }
}

// Attributes of the style normal.
pub fn upright(ratio: f32, weight: f32) -> Attributes
    ensures { result ≡ attributes_of ratio FontStyle.Normal weight }
{
    Attributes::new(
        FontWidth::new(ratio),
        FontStyle::Normal,
        FontWeight::new(weight),
    )
}

// The default attributes but for the style.
pub fn styled(style: FontStyle) -> Attributes
    ensures { result ≡ attributes_of (single 1) style (single 400) }
{
    Attributes::new(FontWidth::NORMAL, style, FontWeight::NORMAL)
}

pub fn degrees(angle: f32) -> FontStyle
    ensures { result ≡ FontStyle.Oblique (Angle.Degrees angle) }
{
    FontStyle::Oblique(Angle::Degrees(angle))
}
