// Why a call is refused: the table of refusals in docs/GUIDE.md, section 6.
ghost use Rattle.std.specs.Prelude.{◌≡◌};
ghost use Rattle.font.specs.Refusals.{number};

use std::error::Error;
use std::fmt;

// A row of the table.
#[derive(Clone, Copy, Debug, PartialEq, Eq)]
pub enum Refusal {
    WrongOutput,
    Overlong,
    PastEnd,
    OverLimit,
    NotHeld,
    BadDirectory,
    NoCharmap,
    ManyAxes,
    NoFace,
    Unknown,
    BadNumber,
    BytesLeft,
    NoRequest,
    FourthSetting,
    NoFont,
    DamagedTable,
}

impl Refusal {
    // The table's column "No."
    #[tactic(auto, unfolding(crate::specs::Refusals::number))]
    pub fn number(self) -> u8
        ensures { result ≡ number self }
    {
        match self {
            Refusal::WrongOutput => 16,
            Refusal::Overlong => 17,
            Refusal::PastEnd => 18,
            Refusal::OverLimit => 19,
            Refusal::NotHeld => 20,
            Refusal::BadDirectory => 21,
            Refusal::NoCharmap => 22,
            Refusal::ManyAxes => 23,
            Refusal::NoFace => 24,
            Refusal::Unknown => 25,
            Refusal::BadNumber => 26,
            Refusal::BytesLeft => 27,
            Refusal::NoRequest => 28,
            Refusal::FourthSetting => 29,
            Refusal::NoFont => 30,
            Refusal::DamagedTable => 31,
        }
    }
}

impl fmt::Display for Refusal {
    fn fmt<W: fmt::Write>(&self, f: &mut fmt::Formatter<W>) -> fmt::Result {
        write!(f, "{}", self.number())
    }
}

impl Error for Refusal {}
