// The choice of a face from the rows of a family: scans for the least rank. The faces that remain after a stage are neither
// copied nor listed: the next one scans the family with a test. And the default and the equal list.
ghost use Rattle.std.specs.Prelude.{◌≡◌, ℕ, ◌&&◌, ◌≤◌, ◌<◌, [], IfSome};
ghost use Rattle.matching.specs.Packed.{width_rank, style_rank, weight_rank, asks_slant, slants, largest, Scanned};
ghost use Rattle.matching.specs.Below.{some};
ghost use Rattle.matching.specs.Order.{Face, choice, equal_places, laid_out};
ghost use Rattle.matching.specs.Matching.{default_place, place_or};
ghost use Rattle.matching.specs.Rows.{face_of_row, family_of_rows};
ghost use Rattle.matching.specs.FamilyRows.{family_in, row_in};

use crate::order::Request;
use crate::rows::{FamilyRows, Row};
use crate::{matching, order, rank};
use font::attributes::Attributes;

// The rank of a face in width.
fn width_rank(request: Request, face: Row, place: usize) -> u64
    requires { place < 64 }
    ensures { result ≡ width_rank request (face_of_row face) place }
{
    rank::pack(order::width_standing(request.percent, face.percent), place)
}

// The rank of a face in style, among the faces of the percent.
fn style_rank(request: Request, percent: u32, slant: bool, face: Row, place: usize) -> u64
    requires { place < 64 }
    ensures { result ≡ style_rank request percent slant (face_of_row face) place }
{
    if face.percent == percent {
        let standing = order::style_standing(request.synthesis, slant, request.style, face.style);
        rank::pack(standing, place)
    } else {
        rank::NOWHERE
    }
}

// The rank of a face in weight, among the faces of the percent and the style.
fn weight_rank(request: Request, percent: u32, style: u32, face: Row, place: usize) -> u64
    requires { place < 64 }
    ensures { result ≡ weight_rank request percent style (face_of_row face) place }
{
    if face.percent == percent && face.style == style {
        rank::pack(order::weight_standing(request.weight, face.weight), place)
    } else {
        rank::NOWHERE
    }
}

// Whether a slant axis matters to a request: to an oblique one with synthesis on.
#[tactic(auto, unfolding(crate::specs::Packed::asks_slant))]
fn asks_slant(request: Request) -> bool
    ensures { result ≡ asks_slant request }
{
    request.synthesis && 1 < request.style
}

impl<'a> FamilyRows<'a> {
    // A family without members.
    pub(crate) fn of_faces(rows: &'a [Row; 64], count: usize) -> Self
        requires { count ≤ 64 }
        ensures { (family_in result ≡ family_of_rows rows.now [] count) × (result.count ≡ count) }
    {
        FamilyRows {
            rows,
            members: &[],
            count,
        }
    }

    // The least rank of the faces, by a closure that ranks the face of a row at a place.
    fn least<F: Fn(Row, usize) -> u64>(self, rank: F) -> u64
        requires { (i : ℕ) → i < self.count → F.pre rank (row_in self i) i }
        ensures { (by : Face → ℕ → ℕ)
            → ((i r : ℕ) → i < self.entry.count → F.post rank (row_in self.entry i) i r → r ≡ by (face_of_row (row_in self.entry i)) i)
            → Scanned (family_in self.entry) by largest result }
    {
        let mut best = rank::NOWHERE;
        for place in 0..self.count {
            best = best.min(rank(self.row(place), place));
        }
        best
    }

    // Whether a face of the percent has a slant axis, where it matters to the request.
    fn slant_at(self, percent: u32, request: Request) -> bool
        ensures { result ≡ (asks_slant request && some (λ i. slants percent ((family_in self.entry).face i)) self.entry.count) }
    {
        if asks_slant(request) {
            for place in 0..self.count {
                let face = self.row(place);
                if face.percent == percent && face.marks % 2 == 1 {
                    return true;
                }
            }
        }
        false
    }

    // The chosen place, if a face is chosen, which is of the family. Only our own crates call this and `default_place`: a family
    // over 64 faces is refused before.
    pub fn choose(self, request: Request) -> Option<usize>
        ensures value { place_or self.entry.count result ≡ choice (family_in self.entry) request }
        ensures within { IfSome result (λ place. place < self.entry.count) }
    {
        if self.count < 2 {
            return if self.count == 1 { Some(0) } else { None };
        }
        let first = rank::place_of(self.least(|face, place| width_rank(request, face, place)));
        let percent = self.row(first).percent;
        let slant = self.slant_at(percent, request);
        let best = self.least(|face, place| style_rank(request, percent, slant, face, place));
        if best == rank::NOWHERE {
            return None;
        }
        let style = self.row(rank::place_of(best)).style;
        let lead = self.least(|face, place| weight_rank(request, percent, style, face, place));
        Some(rank::place_of(lead))
    }

    // The choice for default attributes with synthesis off, or 0.
    pub fn default_place(self) -> usize
        ensures { result ≡ default_place (family_in self.entry) }
    {
        let request = matching::request_of(Attributes::DEFAULT, false);
        self.choose(request).unwrap_or(0)
    }

    // Every place whose exact ratio, style and weight equal the chosen face's, in place order. No chosen face has none. The count
    // goes on by hand: a fixed array is filled from its begin, and no collection grows.
    pub(crate) fn equal_places(self, chosen: Option<usize>) -> Places
        requires { IfSome chosen (λ place. place < self.count) }
        ensures { result ≡ laid_out (equal_places (family_in self.entry) (place_or self.entry.count chosen)) }
    {
        let mut places = [0; 64];
        let mut count = 0;
        if let Some(chosen) = chosen {
            let face = self.row(chosen);
            for place in 0..self.count {
                if face.same_face(self.row(place)) {
                    places[count] = place;
                    count += 1;
                }
            }
        }
        Places { places, count }
    }
}

// Places of a family, in order. Those past the count are zero: a fixed array, since a call by value answers it without a heap.
#[derive(Clone, Copy)]
pub struct Places {
    pub places: [usize; 64],
    pub count: usize,
}
