// Implementation of the CSS font matching algorithm, on a family by value.
ghost use Rattle.std.specs.Prelude.{◌≡◌, ◌≤◌, ◌<◌, cond, IfOk, IfSome};
ghost use Rattle.font.specs.Attributes.{accepted_attributes};
ghost use Rattle.font.specs.Overrides.{face_refusal};
ghost use Rattle.font.specs.Refusals.{refusal_in};
ghost use Rattle.matching.specs.Matching.{style_number, request_of, attributes_from, faces_refusal, family_refusal, match_font, choice_in, ChosenOf, equal_list, matches_in};
ghost use Rattle.matching.specs.Rows.{either_refusal, TakenRows};

use crate::order::Request;
use crate::rows::{FamilyRows, Row};
use crate::stages::Places;
use font::attributes::{Angle, Attributes, FontStyle, FontWeight, FontWidth};
use font::font::FontInfo;
use font::refusal::Refusal;
use font::{overrides, single};

// A style as one number: 0 normal, 1 italic, 2 oblique unstated, else the order number of the angle. So a row stays short, and
// styles are compared and ranked as percents and weights are.
#[tactic(auto, unfolding(crate::specs::Matching::style_number))]
pub fn style_number(style: FontStyle) -> u32
    ensures { result ≡ style_number style }
{
    match style {
        FontStyle::Normal => 0,
        FontStyle::Italic => 1,
        FontStyle::Oblique(angle) => match angle {
            Angle::Unstated => 2,
            Angle::Degrees(x) => single::order_number(x),
        },
    }
}

// The request's numbers.
#[tactic(auto, unfolding(crate::specs::Matching::request_of))]
pub fn request_of(attributes: Attributes, synthesize_style: bool) -> Request
    ensures { result ≡ request_of attributes synthesize_style }
{
    Request {
        percent: single::whole_percent(attributes.width.ratio),
        style: style_number(attributes.style),
        weight: single::order_number(attributes.weight.value),
        synthesis: synthesize_style,
    }
}

// The refusal of faces and of one more: over the limit counts first, then a number that is not accepted.
fn either_refusal(before: Result<(), Refusal>, font: FontInfo) -> Result<(), Refusal>
    ensures { refusal_in result ≡ either_refusal (refusal_in before) (face_refusal font) }
{
    let found = overrides::face_refusal(font);
    if before == Err(Refusal::OverLimit) {
        before
    } else {
        found.and(before)
    }
}

// Whether a family's faces are refused: over the limit, then for a number that is not accepted.
pub(crate) fn faces_refusal(fonts: &[FontInfo; 64], count: usize) -> Result<(), Refusal>
    ensures value { refusal_in result ≡ faces_refusal fonts.now count }
    ensures few { IfOk result (λ _. count ≤ 64) }
{
    if 64 < count {
        return Err(Refusal::OverLimit);
    }
    let mut found = Ok(());
    for font in &fonts[..count] {
        found = either_refusal(found, *font);
    }
    found
}

// Writes the row of each face of a family, if they are not refused.
pub(crate) fn take_faces(
    fonts: &[FontInfo; 64],
    count: usize,
    rows: &mut [Row; 64],
) -> Result<(), Refusal>
    ensures value { refusal_in result ≡ faces_refusal fonts.now count }
    ensures taken { IfOk result (λ _. TakenRows fonts.now count rows.new) }
{
    faces_refusal(fonts, count)?;
    for (place, font) in fonts[..count].iter().enumerate() {
        rows[place] = Row::of_face(font);
    }
    Ok(())
}

// Whether a request is refused: for a number that is not accepted.
#[tactic(auto, unfolding(font::specs::Refusals::refusal_in, font::specs::Refusals::number))]
pub(crate) fn request_refusal(request: Attributes) -> Result<(), Refusal>
    ensures { refusal_in result ≡ cond (accepted_attributes request) 0 26 }
{
    if request.accepted() {
        Ok(())
    } else {
        Err(Refusal::BadNumber)
    }
}

// As `take_faces`, and then whether the request is refused.
fn take_family(
    fonts: &[FontInfo; 64],
    count: usize,
    request: Attributes,
    rows: &mut [Row; 64],
) -> Result<(), Refusal>
    ensures value { refusal_in result ≡ family_refusal fonts.now count request }
    ensures taken { IfOk result (λ _. TakenRows fonts.now count rows.new) }
{
    take_faces(fonts, count, rows)?;
    request_refusal(request)
}

// Writes the rows of a family, and chooses a place.
fn choose(
    fonts: &[FontInfo; 64],
    count: usize,
    request: Attributes,
    synthesize_style: bool,
    rows: &mut [Row; 64],
) -> Result<Option<usize>, Refusal>
    ensures value { choice_in result ≡ match_font fonts.now count request synthesize_style }
    ensures taken { IfOk result (λ _. TakenRows fonts.now count rows.new) }
    ensures within { IfOk result (λ chosen. IfSome chosen (λ place. place < count)) }
{
    take_family(fonts, count, request, rows)?;
    let family = FamilyRows::of_faces(rows, count);
    Ok(family.choose(request_of(request, synthesize_style)))
}

// The place that stands before every other, if one is chosen. Faces and request are given as the original's call has them.
pub fn match_font(
    fonts: [FontInfo; 64],
    count: usize,
    width: FontWidth,
    style: FontStyle,
    weight: FontWeight,
    synthesize_style: bool,
) -> Result<Option<usize>, Refusal>
    ensures value { choice_in result ≡ match_font fonts count (attributes_from width style weight) synthesize_style }
    ensures demand { ChosenOf fonts count (attributes_from width style weight) synthesize_style (choice_in result) }
{
    let request = Attributes {
        width,
        style,
        weight,
    };
    let mut rows = [Row::BLANK; 64];
    choose(&fonts, count, request, synthesize_style, &mut rows)
}

// Every place whose exact ratio, style and weight equal the chosen face's, in place order.
pub fn match_fonts(
    fonts: [FontInfo; 64],
    count: usize,
    width: FontWidth,
    style: FontStyle,
    weight: FontWeight,
    synthesize_style: bool,
) -> Result<Places, Refusal>
    ensures { matches_in result ≡ equal_list fonts count (match_font fonts count (attributes_from width style weight) synthesize_style) }
{
    let request = Attributes {
        width,
        style,
        weight,
    };
    let mut rows = [Row::BLANK; 64];
    let chosen = choose(&fonts, count, request, synthesize_style, &mut rows)?;
    let family = FamilyRows::of_faces(&rows, count);
    Ok(family.equal_places(chosen))
}
