// Calls on a face by value.
ghost use Rattle.std.specs.Prelude.{◌≡◌, IfOk};
ghost use Rattle.font.specs.Refusals.{refusal_in};
ghost use Rattle.font.specs.Slant.{reading_number};
ghost use Rattle.matching.specs.Matching.{attributes_from};
ghost use Rattle.matching.specs.Synthesis.{varies_of, synthesis_refusal, synthesis_of, synthesis_in};

use crate::synthesis::{Synthesis, Varies};
use crate::{axes, matching, synthesis};
use font::attributes::{Attributes, FontStyle, FontWeight, FontWidth};
use font::font::FontInfo;
use font::overrides;
use font::refusal::Refusal;
use font::slant::Reading;

// Which axes a face has.
#[tactic(auto, using(crate::proofs::Gathered::axes_few), unfolding(crate::specs::Synthesis::varies_of, crate::specs::Synthesis::wdth, crate::specs::Synthesis::wght, crate::specs::Synthesis::ital, crate::specs::Matching::slnt, crate::specs::Matching::axis_at, crate::specs::Matching::has_axis))]
pub fn varies(font: FontInfo) -> Varies
    ensures { result ≡ varies_of font }
{
    Varies {
        width: axes::has_axis(&font, axes::WDTH),
        weight: axes::axis_place(&font, axes::WGHT).map(|place| font.axes[place].default),
        slant: axes::has_axis(&font, axes::SLNT),
        italic: axes::has_axis(&font, axes::ITAL),
    }
}

// The reading of a call on a face with a request, or why it is refused: for no reading, then for the face, then for the request.
#[tactic(auto, using(crate::proofs::Readings::readings), unfolding(crate::specs::Synthesis::synthesis_refusal, font::specs::Refusals::refusal_in, font::specs::Refusals::number))]
fn synthesis_refusal(font: FontInfo, reading: u32, request: Attributes) -> Result<Reading, Refusal>
    ensures value { refusal_in result ≡ synthesis_refusal reading font request }
    ensures read { IfOk result (λ r. reading_number r ≡ reading) }
{
    let reading = Reading::try_from(reading)?;
    overrides::face_refusal(font)?;
    matching::request_refusal(request)?;
    Ok(reading)
}

// The synthesis that brings a face to the requested attributes, under a reading.
#[tactic(auto, using(crate::proofs::Readings::readings), unfolding(crate::specs::Synthesis::synthesis_of, crate::specs::Synthesis::synthesis_in, font::specs::Refusals::refusal_in, crate::specs::Matching::attributes_from))]
pub fn synthesis(
    font: FontInfo,
    reading: u32,
    width: FontWidth,
    style: FontStyle,
    weight: FontWeight,
) -> Result<Synthesis, Refusal>
    ensures { synthesis_in result ≡ synthesis_of reading font (attributes_from width style weight) }
{
    let request = Attributes {
        width,
        style,
        weight,
    };
    let reading = synthesis_refusal(font, reading, request)?;
    synthesis::synthesize(font.attributes, varies(font), reading, request)
}
