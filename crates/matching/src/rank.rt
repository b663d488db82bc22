// The one way of ranking: turns, ascending or descending by an order number, then by place.
ghost use Rattle.std.specs.Prelude.{◌≡◌, ◌<◌};
ghost use Rattle.matching.specs.Packed.{packed, place_of};

// Where a thing stands: the turn of its group and its order number there, or in no group.
#[derive(Clone, Copy)]
pub(crate) enum Standing {
    Up(u8, u32),
    Down(u8, u32),
    Nowhere,
}

// The rank of what is in no group: after every other. A number, and no Option: a scan keeps the least in one comparison.
pub(crate) const NOWHERE: u64 = 0xFFFF_FFFF_FFFF_FFFF;

// A standing and a place as one number, so that the lower number stands before: a scan compares one number for each face. The bound
// of a place is asked here and by what ranks: a type of places would be opened at each use.
pub(crate) fn pack(standing: Standing, place: usize) -> u64
    requires { place < 64 }
    ensures { result ≡ packed standing place }
{
    match standing {
        Standing::Up(turn, order) => {
            (((turn as u64) * 2) * 0x1_0000_0000 + order as u64) * 64 + place as u64
        }
        Standing::Down(turn, order) => {
            let under = (0xFFFF_FFFF - order) as u64;
            (((turn as u64) * 2 + 1) * 0x1_0000_0000 + under) * 64 + (63 - place) as u64
        }
        Standing::Nowhere => NOWHERE,
    }
}

// The place that a number below NOWHERE was packed from.
#[tactic(auto, unfolding(crate::specs::Packed::place_of))]
pub(crate) fn place_of(rank: u64) -> usize
    ensures { result ≡ place_of rank }
{
    let low = (rank % 64) as usize;
    if (rank / 0x40_0000_0000) % 2 == 0 {
        low
    } else {
        63 - low
    }
}
