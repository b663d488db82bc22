// Slant: the two readings of a job. In `post` and on `slnt` a negative number leans right, in a request a positive one.
// Reading 0 takes a font's number as it stands, reading 1 its opposite.
ghost use Rattle.std.specs.Prelude.{◌≡◌};
ghost use Rattle.font.specs.Slant.{is_reading, opposite, reading_number, ReadingOf, slant_under};

use crate::refusal::Refusal;

// How the slants of a job's fonts are read.
#[derive(Clone, Copy, Debug, Default, PartialEq, Eq)]
pub enum Reading {
    #[default]
    AsStated,
    Opposite,
}

impl TryFrom<u32> for Reading {
    type Error = Refusal;

    ghost try_from_gives = { ReadingOf };

    #[tactic(auto, unfolding(crate::specs::Slant::reading_of))]
    fn try_from(number: u32) -> Result<Self, Refusal> {
        match number {
            0 => Ok(Reading::AsStated),
            1 => Ok(Reading::Opposite),
            _ => Err(Refusal::Unknown),
        }
    }
}

impl Reading {
    // A slant that is read of a font, or set in it.
    #[tactic(auto, unfolding(crate::specs::Slant::slant_under, crate::specs::Slant::reading_number))]
    pub fn slant(self, x: f32) -> f32
        ensures { result ≡ slant_under (reading_number self) x }
    {
        match self {
            Reading::AsStated => x,
            Reading::Opposite => opposite(x),
        }
    }
}

// Whether there is a reading of this number.
#[tactic(auto, unfolding(crate::specs::Slant::is_reading, crate::specs::Slant::reading_of))]
pub fn is_reading(reading: u32) -> bool
    ensures { result ≡ is_reading reading }
{
    Reading::try_from(reading).is_ok()
}

// Minus x, and positive zero for either zero.
#[tactic(auto, using(crate::proofs::Floats::literals), unfolding(crate::specs::Slant::opposite))]
fn opposite(x: f32) -> f32
    ensures { result ≡ opposite x }
{
    if x == 0.0 { 0.0 } else { -x }
}

// As `Reading::slant`, by the number of a reading. Under a number of none the slant is as it stands.
#[tactic(auto, unfolding(crate::specs::Slant::slant_under, crate::specs::Slant::reading_of, crate::specs::Slant::reading_number))]
pub fn slant_under(reading: u32, x: f32) -> f32
    ensures { result ≡ slant_under reading x }
{
    Reading::try_from(reading).unwrap_or_default().slant(x)
}
