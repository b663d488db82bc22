// Model for font families.
ghost use Rattle.std.specs.Prelude.{◌≡◌};
ghost use Rattle.matching.specs.Family.{made_of, made_in, fetched, fetched_in};

use crate::matching;
use crate::rows::{FamilyRows, Row};
use font::font::FontInfo;
use font::refusal::Refusal;

// The faces of a family by value, with the place of its default. Faces past the count are no part of it: the array is fixed,
// since the library allocates nothing.
#[derive(Clone, Copy)]
pub struct FamilyInfo {
    pub fonts: [FontInfo; 64],
    pub count: usize,
    pub default_font: usize,
}

impl FamilyInfo {
    // A family of the faces, with its default.
    pub fn new(fonts: [FontInfo; 64], count: usize) -> Result<Self, Refusal>
        ensures { made_in fonts count result ≡ made_of fonts count }
    {
        let mut rows = [Row::BLANK; 64];
        matching::take_faces(&fonts, count, &mut rows)?;
        let family = FamilyRows::of_faces(&rows, count);
        Ok(FamilyInfo {
            fonts,
            count,
            default_font: family.default_place(),
        })
    }

    // The face at a place, refused for too many faces or axes, then for no such place, and for nothing further.
    pub fn match_font(self, place: usize) -> Result<FontInfo, Refusal>
        ensures { fetched_in self result ≡ fetched self place }
    {
        let refusal = matching::faces_refusal(&self.fonts, self.count);
        if refusal == Err(Refusal::OverLimit) {
            return Err(Refusal::OverLimit);
        }
        if place < self.count {
            Ok(self.fonts[place])
        } else {
            Err(Refusal::NoFace)
        }
    }
}
