// The offers of one family: its held equal faces, then its held default unless offered. The one of a number is found by
// counting down, and no list is made.
ghost use Rattle.std.specs.Prelude.{◌≡◌, ◌^◌, ◌<◌, length};
ghost use Rattle.matching.specs.Order.{equal_places};
ghost use Rattle.matching.specs.Matching.{place_or};
ghost use Rattle.matching.specs.Rows.{family_of_rows};
ghost use Rattle.query.specs.Offers.{pick, keep, family_offers};
ghost use Rattle.query.specs.CallTables.{is_held, held_row};
ghost use Rattle.query.specs.Listed.{MembersKnown, chosen_row, equals_row, default_offered, default_offers, offers_at};

use font::tables;
use matching::order::Request;
use matching::rows::{FamilyRows, Row};

// Whether a face is held.
fn is_held(face: Row) -> bool
    ensures { result ≡ is_held face }
{
    face.marks / 2 % 2 == 1
}

// The row of the chosen face, if a face is chosen. It goes with its family, as in the definitions.
fn chosen_row(family: FamilyRows, chosen: Option<usize>) -> Option<Row>
    ensures { result ≡ chosen_row family.entry.rows.now family.entry.members.now family.entry.count (place_or family.entry.count chosen) }
{
    // Not `filter` and `map`, for the reason that `family_offer` names.
    match chosen {
        Some(place) if place < family.count => Some(family.row(place)),
        _ => None,
    }
}

// Whether a face equals the chosen one, if a face is chosen.
#[tactic(auto, unfolding(crate::specs::Listed::equals_row))]
fn equals_chosen(chosen: Option<Row>, face: Row) -> bool
    ensures { result ≡ equals_row chosen face }
{
    chosen.is_some_and(|wanted| wanted.same_face(face))
}

// The n-th of the held faces that equal the chosen one, in place order. Else how far past them n lies: what is left of n is the
// answer too, so it is counted down by hand.
fn held_equal(family: FamilyRows, chosen: Option<usize>, n: usize) -> Result<u16, usize>
    ensures { result ≡ pick Ok Err (keep (held_row family.entry.rows.now family.entry.members.now) (equal_places (family_of_rows family.entry.rows.now family.entry.members.now family.entry.count) (place_or family.entry.count chosen))) n }
{
    let wanted = chosen_row(family, chosen);
    let mut left = n;
    for place in 0..family.count {
        let face = family.row(place);
        if is_held(face) && equals_chosen(wanted, face) {
            if left == 0 {
                return Ok(place as u16);
            }
            left -= 1;
        }
    }
    Err(left)
}

// Whether the default is held and not among the held faces that equal the chosen one.
fn offers_default(family: FamilyRows, chosen: Option<usize>, default: usize) -> bool
    ensures { result ≡ default_offered family.entry.rows.now family.entry.members.now family.entry.count (place_or family.entry.count chosen) default }
{
    default < family.count
        && is_held(family.row(default))
        && !equals_chosen(chosen_row(family, chosen), family.row(default))
}

// The n-th offer behind the held equal faces: the default, if it is offered, and nothing further.
fn default_offer(family: FamilyRows, chosen: Option<usize>, n: usize) -> Result<u16, usize>
    ensures { result ≡ pick Ok Err (default_offers family.entry.rows.now family.entry.members.now family.entry.count (place_or family.entry.count chosen)) n }
{
    let default = family.default_place();
    if !offers_default(family, chosen, default) {
        return Err(n);
    }
    if n == 0 {
        Ok(default as u16)
    } else {
        Err(n - 1)
    }
}

// The n-th offer of a family, or how far past its offers n lies.
fn family_offer(family: FamilyRows, request: Request, n: usize) -> Result<u16, usize>
    ensures { result ≡ pick Ok Err (family_offers (family_of_rows family.entry.rows.now family.entry.members.now family.entry.count) (held_row family.entry.rows.now family.entry.members.now) request) n }
{
    let chosen = family.choose(request);
    // Not `or_else`: of a closure that holds the family the proof does not know what it returns.
    match held_equal(family, chosen, n) {
        Ok(place) => Ok(place),
        Err(left) => default_offer(family, chosen, left),
    }
}

// The n-th offer of the family whose entry lies at a position.
pub(crate) fn entry_offer(
    job: &[u8],
    at: usize,
    rows: &[Row],
    request: Request,
    n: usize,
) -> Result<u16, usize>
    requires { (at < 2 ^ 32) × MembersKnown job.now at (length rows.now) }
    ensures { result ≡ pick Ok Err (offers_at job.now at rows.now request) n }
{
    let count = tables::u16_at(job, at) as usize;
    if count == 0 {
        return Err(n);
    }
    let members = &job[at + 2..at + 2 + 2 * count];
    let family = FamilyRows {
        rows,
        members,
        count,
    };
    family_offer(family, request, n)
}
