// A face as the code carries it, a row of five numbers; and a family, rows and which of them its places have.
ghost use Rattle.std.specs.Prelude.{◌≡◌, ◌<◌};
ghost use Rattle.matching.specs.Order.{same_face};
ghost use Rattle.matching.specs.Rows.{face_of_row, number_at, place_row, HasNumber, HasRow, Placed, row_of, face_row};

use crate::{axes, matching};
use font::attributes::Attributes;
use font::font::FontInfo;
use font::single;

// The whole percent, the style number, the order numbers of the weight and of the exact ratio, and the marks.
// The lowest bit of the marks is 1 for a face with a slant axis; what stands above it is the caller's.
#[derive(Clone, Copy)]
pub struct Row {
    pub percent: u32,
    pub style: u32,
    pub weight: u32,
    pub ratio: u32,
    // One number: with a field for each mark the rows of 256 faces pass the stack that an offer call may take.
    pub marks: u32,
}

impl Row {
    // What stands where no row is yet.
    pub const BLANK: Row = Row {
        percent: 0,
        style: 0,
        weight: 0,
        ratio: 0,
        marks: 0,
    };

    // The row of a face with the attributes.
    #[tactic(auto, unfolding(crate::specs::Rows::row_of))]
    pub fn new(attributes: Attributes, marks: u32) -> Self
        ensures { result ≡ row_of attributes marks }
    {
        Row {
            percent: single::whole_percent(attributes.width.ratio),
            style: matching::style_number(attributes.style),
            weight: single::order_number(attributes.weight.value),
            ratio: single::order_number(attributes.width.ratio),
            marks,
        }
    }

    // The row of a face by value, with no mark but that of the slant axis.
    pub(crate) fn of_face(font: &FontInfo) -> Self
        ensures { result ≡ face_row font.now }
    {
        Row::new(font.attributes, axes::has_axis(font, axes::SLNT) as u32)
    }

    // Whether the exact ratio, style and weight of a face equal those of this one, the chosen.
    #[tactic(auto, unfolding(crate::specs::Order::same_face))]
    pub fn same_face(self, face: Row) -> bool
        ensures { result ≡ same_face (face_of_row face) (face_of_row self) }
    {
        face.ratio == self.ratio && face.style == self.style && face.weight == self.weight
    }
}

// A family: rows, and as its members the bytes of a 16-bit number for each place, of the row that the face there has. Without
// members each place has its own row. Each of at most 64 places has one.
#[derive(Clone, Copy)]
pub struct FamilyRows<'a> {
    pub rows: &'a [Row],
    pub members: &'a [u8],
    pub count: usize,
    ghost placed: { Placed rows.now members.now count },
}

// The number of the row that the face at a place has. A choice makes no array, not even the one of two bytes that `from_be_bytes`
// takes.
fn number_at(members: &[u8], place: usize) -> usize
    requires { (place < 64) × HasNumber members.now place }
    ensures { (result ≡ number_at members.now place) × (result < 65536) }
{
    if members.is_empty() {
        return place;
    }
    (members[2 * place] as usize) * 256 + members[2 * place + 1] as usize
}

// The row of the face at a place that has one.
#[tactic(auto, unfolding(crate::specs::Rows::place_row))]
pub fn place_row(rows: &[Row], members: &[u8], place: usize) -> Row
    requires { HasRow rows.now members.now place }
    ensures { result ≡ place_row rows.now members.now place }
{
    rows[number_at(members, place)]
}

impl<'a> FamilyRows<'a> {
    // The row of the face at a place.
    pub fn row(self, place: usize) -> Row
        requires { place < self.count }
        ensures { result ≡ place_row self.entry.rows.now self.entry.members.now place }
    {
        place_row(self.rows, self.members, place)
    }
}
