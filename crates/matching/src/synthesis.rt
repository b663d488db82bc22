// Synthesis: the variation settings, emboldening and skew that bring a face to a request.
ghost use Rattle.std.specs.Prelude.{◌≡◌};
ghost use Rattle.font.specs.Slant.{reading_number};
ghost use Rattle.matching.specs.Synthesis.{width_setting, weight_setting, emboldened, degrees_of, italic_lean, leans_right, oblique_lean, lean_of, setting_of, skew_of, unvaried, synthesized, laid_out, put, added, settled, synthesis_in};

use crate::{axes, order};
use font::attributes::{Angle, Attributes, FontStyle};
use font::refusal::Refusal;
use font::single;
use font::slant::Reading;

// A variation setting.
#[derive(Clone, Copy)]
pub struct Setting {
    pub tag: u32,
    pub value: f32,
}

impl Setting {
    // What stands in a slot past the settings.
    pub const BLANK: Setting = Setting { tag: 0, value: 0.0 };

    // Italic, on its axis.
    const ITALIC: Setting = Setting {
        tag: axes::ITAL,
        value: 1.0,
    };
}

// How a face is brought to a style: as it stands, by a variation setting, or by a skew in degrees.
#[derive(Clone, Copy)]
enum Lean {
    Upright,
    Varied(Setting),
    Skewed(i8),
}

// Which axes a face has, of `wght` the default of the first.
#[derive(Clone, Copy)]
pub struct Varies {
    pub width: bool,
    pub weight: Option<f32>,
    pub slant: bool,
    pub italic: bool,
}

// Settings in three slots, those past the length blank; emboldening; skew in degrees. The slots are fixed: the library allocates
// nothing, and the record of an offer has three.
#[derive(Clone, Copy)]
pub struct Synthesis {
    pub settings: [Setting; 3],
    pub len: u8,
    pub embolden: bool,
    pub skew: i8,
}

#[tactic(auto, using(crate::proofs::Numbers::single_100), unfolding(crate::specs::Synthesis::width_setting, crate::specs::Synthesis::wdth))]
fn width_setting(varies: Varies, own: f32, wanted: f32) -> Option<Setting>
    ensures { result ≡ width_setting varies own wanted }
{
    if varies.width && single::order_number(own) != single::order_number(wanted) {
        return Some(Setting {
            tag: axes::WDTH,
            value: wanted * 100.0,
        });
    }
    None
}

#[tactic(auto, unfolding(crate::specs::Synthesis::weight_setting, crate::specs::Synthesis::differs_from, crate::specs::Synthesis::wght))]
fn weight_setting(varies: Varies, wanted: f32) -> Option<Setting>
    ensures { result ≡ weight_setting varies wanted }
{
    let default = varies.weight?;
    if single::order_number(default) != single::order_number(wanted) {
        return Some(Setting {
            tag: axes::WGHT,
            value: wanted,
        });
    }
    None
}

#[tactic(auto, using(crate::proofs::Numbers::single_200), unfolding(crate::specs::Synthesis::emboldened))]
fn emboldens(varies: Varies, own: f32, wanted: f32) -> bool
    ensures { result ≡ emboldened varies own wanted }
{
    varies.weight.is_none() && own + 200.0 < wanted
}

// The degrees of an oblique: 14 where unstated.
#[tactic(auto, using(crate::proofs::Numbers::single_14), unfolding(crate::specs::Synthesis::degrees_of))]
fn degrees(angle: Angle) -> f32
    ensures { result ≡ degrees_of angle }
{
    match angle {
        Angle::Unstated => 14.0,
        Angle::Degrees(x) => x,
    }
}

#[tactic(auto, using(crate::proofs::Numbers::single_1, crate::proofs::Numbers::single_14), unfolding(crate::specs::Synthesis::italic_lean, crate::specs::Synthesis::ital, crate::specs::Matching::slnt))]
fn italic_lean(varies: Varies, reading: Reading) -> Lean
    ensures { result ≡ italic_lean (reading_number reading) varies }
{
    if varies.italic {
        return Lean::Varied(Setting::ITALIC);
    }
    if varies.slant {
        return Lean::Varied(Setting {
            tag: axes::SLNT,
            value: reading.slant(14.0),
        });
    }
    Lean::Skewed(14)
}

// Whether the italic axis stands in for a slant to the right.
#[tactic(auto, using(crate::proofs::Numbers::zero_angle_lem), unfolding(crate::specs::Synthesis::leans_right))]
fn leans_right(varies: Varies, degrees: f32) -> bool
    ensures { result ≡ leans_right varies degrees }
{
    varies.italic && order::ZERO_ANGLE < single::order_number(degrees)
}

#[tactic(auto, using(crate::proofs::Numbers::single_1), unfolding(crate::specs::Synthesis::oblique_lean, crate::specs::Synthesis::ital, crate::specs::Matching::slnt))]
fn oblique_lean(varies: Varies, reading: Reading, degrees: f32) -> Lean
    ensures { result ≡ oblique_lean (reading_number reading) varies degrees }
{
    if varies.slant {
        return Lean::Varied(Setting {
            tag: axes::SLNT,
            value: reading.slant(degrees),
        });
    }
    if leans_right(varies, degrees) {
        return Lean::Varied(Setting::ITALIC);
    }
    Lean::Skewed(single::truncate_to_i8(degrees))
}

// Style matters only for a normal face and another requested style. The functions of this file are given what their definitions are.
#[tactic(auto, unfolding(crate::specs::Synthesis::lean_of))]
fn lean_of(varies: Varies, reading: Reading, own: FontStyle, wanted: FontStyle) -> Lean
    ensures { result ≡ lean_of (reading_number reading) varies own wanted }
{
    match own {
        FontStyle::Normal => match wanted {
            FontStyle::Normal => Lean::Upright,
            FontStyle::Italic => italic_lean(varies, reading),
            FontStyle::Oblique(angle) => oblique_lean(varies, reading, degrees(angle)),
        },
        FontStyle::Italic => Lean::Upright,
        FontStyle::Oblique(_) => Lean::Upright,
    }
}

#[tactic(auto, unfolding(crate::specs::Synthesis::setting_of))]
fn setting_of(lean: Lean) -> Option<Setting>
    ensures { result ≡ setting_of lean }
{
    match lean {
        Lean::Upright => None,
        Lean::Varied(setting) => Some(setting),
        Lean::Skewed(_) => None,
    }
}

#[tactic(auto, unfolding(crate::specs::Synthesis::skew_of))]
fn skew_of(lean: Lean) -> i8
    ensures { result ≡ skew_of lean }
{
    match lean {
        Lean::Upright => 0,
        Lean::Varied(_) => 0,
        Lean::Skewed(degrees) => degrees,
    }
}

impl Synthesis {
    // No settings.
    #[tactic(auto, using(crate::proofs::Numbers::single_0), unfolding(crate::specs::Synthesis::laid_out, crate::specs::Synthesis::unvaried))]
    pub fn unvaried(embolden: bool, skew: i8) -> Self
        ensures { laid_out result ≡ unvaried 0 embolden skew }
    {
        Synthesis {
            settings: [Setting::BLANK; 3],
            len: 0,
            embolden,
            skew,
        }
    }

    // One setting more, in the next slot; a fourth is refused.
    #[tactic(auto, using(crate::proofs::ThreeSettings::slots), unfolding(crate::specs::Synthesis::laid_out, crate::specs::Synthesis::settled, crate::specs::Synthesis::put, font::specs::Refusals::number))]
    fn put(mut self, setting: Setting) -> Result<Self, Refusal>
        ensures { settled (laid_out self) result ≡ put (laid_out self) setting.tag setting.value }
    {
        if 3 <= self.len {
            return Err(Refusal::FourthSetting);
        }
        self.settings[self.len as usize] = setting;
        self.len += 1;
        Ok(self)
    }

    #[tactic(auto, unfolding(crate::specs::Synthesis::settled, crate::specs::Synthesis::added))]
    fn added(self, setting: Option<Setting>) -> Result<Self, Refusal>
        ensures { settled (laid_out self) result ≡ added (laid_out self) setting }
    {
        match setting {
            None => Ok(self),
            Some(setting) => self.put(setting),
        }
    }
}

// The synthesis of a face with these attributes and axes, under a reading, for a request.
pub fn synthesize(
    own: Attributes,
    varies: Varies,
    reading: Reading,
    request: Attributes,
) -> Result<Synthesis, Refusal>
    ensures { synthesis_in result ≡ synthesized (reading_number reading) own varies request }
{
    let embolden = emboldens(varies, own.weight.value, request.weight.value);
    let lean = lean_of(varies, reading, own.style, request.style);
    Synthesis::unvaried(embolden, skew_of(lean))
        .added(width_setting(varies, own.width.ratio, request.width.ratio))?
        .added(weight_setting(varies, request.weight.value))?
        .added(setting_of(lean))
}
