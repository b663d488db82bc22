// The offers of a request: families in turn, fallbacks last. An offer's number is found by subtracting the families' counts.
// The rows of the faces are those of a reading; here it is no matter of which.
ghost use Rattle.std.specs.Prelude.{◌≡◌, ◌^◌, ◌<◌};
ghost use Rattle.query.specs.Values.{list_at};
ghost use Rattle.query.specs.Offers.{pick, in_turn, offer_at};
ghost use Rattle.query.specs.Listed.{Loaded, Counted, row_offers, listed_at, SectionIn, Names, Locates, search_in};

use crate::answer::Offer;
use crate::fields::wide;
use crate::{families, fields, loading, sizes};
use font::attributes::Attributes;
use font::tables;
use matching::order::Request;
use matching::rows::Row;

// An offer that was found, with its face's number, where that face's entry and the overrides lie, and the request's attributes.
#[derive(Clone, Copy)]
pub(crate) struct Found {
    pub offer: Offer,
    pub number: usize,
    pub entry: usize,
    pub section: usize,
    pub wanted: Attributes,
}

// The search for an offer: an accepted job, the rows of its faces, its families' numbers, and the request.
// A family's number is for where it begins and for its count: two fields would take 256 bytes more of the stack.
#[derive(Drop)]
pub(crate) struct Search<'a> {
    pub job: &'a [u8],
    pub rows: &'a [Row],
    pub families: &'a mut [u32; 64],
    pub request: Request,
    ghost loaded: { Loaded job.now rows.now families.now },
    ghost counted: { Counted job.now rows.now request families.now },
}

impl<'a> Search<'a> {
    ghost use Rattle.query.specs.Search.{Keeps};

    // The n-th offer of the family of a number. An unknown number has none. A family is matched where its count is not noted
    // yet, or where it has the offer. The job is given beside the search, so that it is not read again for each number of a list.
    fn number_offer(&mut self, job: &[u8], family: u16, n: usize) -> Result<u16, usize>
        requires { job.now ≡ self.old.job.now }
        ensures value { result ≡ pick Ok Err (row_offers self.old.job.now self.old.rows.now self.old.request family) n }
        ensures kept { Keeps self.old self.new }
    {
        if sizes::MOST_FAMILIES <= family {
            return Err(n);
        }
        let number = family as usize;
        let noted = self.families[number];
        let known = wide(noted / loading::COUNT_STEP);
        if 0 < known && known - 1 <= n {
            return Err(n - (known - 1));
        }
        let begin = noted % loading::COUNT_STEP;
        let offer = families::entry_offer(job, wide(begin), self.rows, self.request, n);
        if let Err(left) = offer {
            self.families[number] = begin + loading::COUNT_STEP * ((n - left + 1) as u32);
        }
        offer
    }

    // The n-th offer of a list of family numbers, which begins with a byte count. Positions are bounded as in `faces`.
    fn list_offer(&mut self, at: usize, n: usize) -> Result<Offer, usize>
        requires { at < 2 ^ 32 }
        ensures value { result ≡ pick Ok Err (in_turn (row_offers self.old.job.now self.old.rows.now self.old.request) (list_at self.old.job.now at)) n }
        ensures kept { Keeps self.old self.new }
    {
        let job = self.job;
        let count = fields::byte_at(job, at) as usize;
        let mut left = n;
        for k in 0..count {
            let family = tables::u16_at(job, at + 1 + 2 * k);
            match self.number_offer(job, family, left) {
                Ok(place) => {
                    return Ok(Offer { family, place });
                }
                Err(past) => {
                    left = past;
                }
            }
        }
        Err(left)
    }

    // The n-th offer of the request, whose entry lies at a position.
    pub(crate) fn request_offer(&mut self, at: usize, n: usize) -> Option<Offer>
        requires { at < 2 ^ 31 }
        ensures value { result ≡ offer_at (listed_at self.old.job.now self.old.rows.now at self.old.request) n }
        ensures kept { Keeps self.old self.new }
    {
        if tables::u16_at(self.job, at) as usize <= n {
            return None;
        }
        let named = at + sizes::REQUEST_HEAD;
        match self.list_offer(named, n) {
            Ok(offer) => Some(offer),
            Err(left) => {
                let fallbacks = named + 1 + 2 * (fields::byte_at(self.job, named) as usize);
                self.list_offer(fallbacks, left).ok()
            }
        }
    }

    // An offer with where its face lies. The section of the overrides lies at `section`.
    pub(crate) fn place_of_face(self, section: usize, offer: Offer, wanted: Attributes) -> Found
        requires section_in { SectionIn self.job.now section }
        requires names { Names self.job.now offer }
        ensures { Locates self.entry.job.now offer wanted (search_in (Ok (Some result))) }
    {
        let family = offer.family as usize;
        let at = wide(self.families[family] % loading::COUNT_STEP);
        let number = tables::u16_at(self.job, at + 2 + 2 * (offer.place as usize)) as usize;
        let entry = wide(self.rows[number].marks / 4);
        Found {
            offer,
            number,
            entry,
            section,
            wanted,
        }
    }
}
