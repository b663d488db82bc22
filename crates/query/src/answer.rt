// What is answered to a request and an offer number.
use font::charmap::CharmapIndex;
use matching::synthesis::Synthesis;

// A family's number and a place in it.
#[derive(Clone, Copy)]
pub struct Offer {
    pub family: u16,
    pub place: u16,
}

// An offer with its synthesis and charmap index.
#[derive(Clone, Copy)]
pub struct Answer {
    pub offer: Offer,
    pub synthesis: Synthesis,
    pub charmap_index: CharmapIndex,
}
