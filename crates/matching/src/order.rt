// The order of faces: where a percent, a style and a weight stand for a request.
ghost use Rattle.std.specs.Prelude.{◌≡◌};
ghost use Rattle.matching.specs.Order.{angle, width_standing, normal_standing, italic_standing, other_standing, turn_of, oblique_standing, style_standing, weight_standing};

use crate::rank::Standing;

// Order numbers, raised by 2^31: of the angles 0, 14 and -14, and of the weights 400 and 500.
pub(crate) const ZERO_ANGLE: u32 = 0x8000_0000;

const FOURTEEN: u32 = 0xC160_0000;

const MINUS_FOURTEEN: u32 = 0x3EA0_0000;

const FOUR_HUNDRED: u32 = 0xC3C8_0000;

const FIVE_HUNDRED: u32 = 0xC3FA_0000;

// A request: its whole percent, its style and weight as numbers, and whether synthesis is on.
#[derive(Clone, Copy)]
pub struct Request {
    pub percent: u32,
    pub style: u32,
    pub weight: u32,
    pub synthesis: bool,
}

// Where a percent stands.
#[tactic(auto, unfolding(crate::specs::Order::width_standing))]
pub(crate) fn width_standing(wanted: u32, percent: u32) -> Standing
    ensures { result ≡ width_standing wanted percent }
{
    if percent == wanted {
        return Standing::Up(0, percent);
    }
    if wanted <= 100 {
        if percent < wanted {
            return Standing::Down(1, percent);
        }
        return Standing::Up(2, percent);
    }
    if wanted < percent {
        return Standing::Up(1, percent);
    }
    Standing::Down(2, percent)
}

// The angle that a style ranks by: 14 where unstated.
#[tactic(auto, using(crate::proofs::Numbers::fourteen_is), unfolding(crate::specs::Order::angle))]
fn angle_of(style: u32) -> u32
    ensures { result ≡ angle style }
{
    if style == 2 { FOURTEEN } else { style }
}

// Where another style stands for a normal request.
#[tactic(auto, using(crate::proofs::Numbers::zero_angle_lem), unfolding(crate::specs::Order::normal_standing))]
fn normal_standing(style: u32) -> Standing
    ensures { result ≡ normal_standing style }
{
    if style == 1 {
        return Standing::Up(2, 0);
    }
    let angle = angle_of(style);
    if ZERO_ANGLE <= angle {
        return Standing::Up(1, angle);
    }
    Standing::Down(3, angle)
}

// Where another style stands for an italic request.
#[tactic(auto, using(crate::proofs::Numbers::zero_angle_lem, crate::proofs::Numbers::fourteen_is), unfolding(crate::specs::Order::italic_standing, crate::specs::Order::oblique))]
fn italic_standing(style: u32) -> Standing
    ensures { result ≡ italic_standing style }
{
    if style < 2 {
        return Standing::Up(4, 0);
    }
    let angle = angle_of(style);
    if FOURTEEN <= angle {
        return Standing::Up(1, angle);
    }
    if ZERO_ANGLE < angle {
        return Standing::Down(2, angle);
    }
    if angle < ZERO_ANGLE {
        return Standing::Down(3, angle);
    }
    Standing::Up(4, 0)
}

// Where a style that has no angle on the side of an oblique request stands. Its four words are those of the definition, here and in
// the two functions below.
#[tactic(auto, using(crate::proofs::Numbers::zero_angle_lem), unfolding(crate::specs::Order::other_standing))]
fn other_standing(synthesis: bool, slant: bool, wanted: u32, style: u32) -> Standing
    ensures { result ≡ other_standing synthesis slant wanted style }
{
    if synthesis {
        if slant {
            return Standing::Nowhere;
        }
        if style == 0 {
            return Standing::Up(3, 0);
        }
        return Standing::Up(4, 0);
    }
    if style == 1 {
        return Standing::Up(3, 0);
    }
    if style == 0 {
        return Standing::Up(5, 0);
    }
    if ZERO_ANGLE <= wanted {
        return Standing::Down(4, angle_of(style));
    }
    Standing::Up(4, angle_of(style))
}

// The turn of the one of two groups that comes first where the test holds.
fn turn(first: bool) -> u8
    ensures { result ≡ turn_of first }
{
    if first { 1 } else { 2 }
}

// Where a style stands for an oblique request: its own side, of zero or more or under zero, and then the rest.
fn oblique_standing(synthesis: bool, slant: bool, wanted: u32, style: u32) -> Standing
    ensures { result ≡ oblique_standing synthesis slant wanted style }
{
    if style < 2 {
        return other_standing(synthesis, slant, wanted, style);
    }
    let lean = angle_of(style);
    if ZERO_ANGLE <= wanted {
        let first = FOURTEEN <= wanted;
        if wanted <= lean {
            return Standing::Up(turn(first), lean);
        }
        if ZERO_ANGLE < lean {
            return Standing::Down(turn(!first), lean);
        }
    } else {
        let first = wanted <= MINUS_FOURTEEN;
        if lean <= wanted {
            return Standing::Down(turn(first), lean);
        }
        if lean < ZERO_ANGLE {
            return Standing::Up(turn(!first), lean);
        }
    }
    other_standing(synthesis, slant, wanted, style)
}

// Where a style stands; `slant` says whether a slant axis is at that width.
#[tactic(auto, unfolding(crate::specs::Order::style_standing))]
pub(crate) fn style_standing(synthesis: bool, slant: bool, wanted: u32, style: u32) -> Standing
    ensures { result ≡ style_standing synthesis slant wanted style }
{
    if style == wanted {
        return Standing::Up(0, 0);
    }
    if wanted == 0 {
        return normal_standing(style);
    }
    if wanted == 1 {
        return italic_standing(style);
    }
    oblique_standing(synthesis, slant, angle_of(wanted), style)
}

// Where a weight stands.
#[tactic(auto, using(crate::proofs::Numbers::four_hundred_lem, crate::proofs::Numbers::five_hundred_lem), unfolding(crate::specs::Order::weight_standing))]
pub(crate) fn weight_standing(wanted: u32, weight: u32) -> Standing
    ensures { result ≡ weight_standing wanted weight }
{
    if weight == wanted {
        return Standing::Up(0, weight);
    }
    if wanted < FOUR_HUNDRED {
        if weight < wanted {
            return Standing::Down(1, weight);
        }
        return Standing::Up(2, weight);
    }
    if FIVE_HUNDRED < wanted {
        if wanted < weight {
            return Standing::Up(1, weight);
        }
        return Standing::Down(2, weight);
    }
    if weight < wanted {
        return Standing::Down(2, weight);
    }
    if weight <= FIVE_HUNDRED {
        return Standing::Up(1, weight);
    }
    Standing::Up(3, weight)
}
