// The offer call.
ghost use Rattle.std.specs.Prelude.{◌≡◌, ◌≤◌, ◌<◌, length};
ghost use Rattle.font.specs.Slant.{reading_number};
ghost use Rattle.matching.specs.Synthesis.{synthesized, varies_of};
ghost use Rattle.query.specs.Sizes.{most_faces};
ghost use Rattle.query.specs.Job.{job_of};
ghost use Rattle.query.specs.CallTables.{Room, TablesOf, Uncounted};
ghost use Rattle.query.specs.Listed.{SectionIn, Readable, SearchAnswer, LeadsTo, LeadsByRows, search_in};
ghost use Rattle.query.specs.Call.{with_synthesis, answer_in, map_ok, answer_call, ReadingOver, offer_call, result_in, Calls};
ghost use Rattle.query.specs.Demands.{Demands};

use crate::answer::{Answer, Offer};
use crate::offers::{Found, Search};
use crate::{faces, loading, record, sizes, values};
use font::attributes::Attributes;
use font::font::FontInfo;
use font::refusal::Refusal;
use font::slant::Reading;
use font::tables;
use matching::matching::request_of;
use matching::rows::Row;
use matching::{face, synthesis};

// The answer with an offer, from its face and the request's attributes, under a reading.
fn with_synthesis(
    offer: Offer,
    font: FontInfo,
    reading: Reading,
    wanted: Attributes,
) -> Result<Answer, Refusal>
    ensures { answer_in (map_ok Some result) ≡ with_synthesis offer (synthesized (reading_number reading) font.attributes (varies_of font) wanted) font.charmap_index }
{
    let synthesis = synthesis::synthesize(font.attributes, face::varies(font), reading, wanted)?;
    Ok(Answer {
        offer,
        synthesis,
        charmap_index: font.charmap_index,
    })
}

// The search in the request of an accepted job at a position, under the reading that its rows are of.
fn search_request(
    job: &[u8],
    overrides: usize,
    at: usize,
    rows: &[Row],
    families: &mut [u32; 64],
    n: usize,
) -> Option<Found>
    requires tables_of { TablesOf job.now rows.now families.old × Uncounted families.old × SectionIn job.now overrides }
    requires request_in_bounds { at < length job.now }
    ensures { LeadsByRows job.now rows.now at n (search_in (Ok result)) }
{
    let wanted = values::attributes_at(job, at + sizes::REQUEST_ATTRIBUTES);
    let request = request_of(wanted, true);
    let mut search = Search {
        job,
        rows,
        families,
        request,
    };
    let offer = search.request_offer(at, n)?;
    Some(search.place_of_face(overrides, offer, wanted))
}

// The search for a request and an offer number, with room for the rows of the job's faces.
fn search_with(
    job: &[u8],
    reading: Reading,
    rows: &mut [Row],
    request: u32,
    number: u32,
) -> Result<Option<Found>, Refusal>
    requires { Room job.now rows.old }
    ensures { LeadsTo (reading_number reading) job.now (answer_call job.now (reading_number reading) request number) (search_in result) }
{
    let mut families = [loading::NOWHERE; 64];
    match loading::load(job, reading, &mut *rows, &mut families, request as usize) {
        Err(refused) => Err(refused.refusal),
        Ok(walked) => match walked.request {
            None => Err(Refusal::NoRequest),
            Some(at) => Ok(search_request(
                job,
                walked.overrides,
                at,
                rows,
                &mut families,
                number as usize,
            )),
        },
    }
}

// The answer of a search. The face is read in a frame of its own, when those of the search are gone.
fn answer_found(job: &[u8], reading: Reading, found: Found) -> Result<Answer, Refusal>
    requires { Readable job.now (search_in (Ok (Some found))) }
    ensures { SearchAnswer (reading_number reading) job.now (search_in (Ok (Some found))) (answer_in (map_ok Some result)) }
{
    let font = faces::offered_face(job, reading, found.section, found.entry, found.number);
    with_synthesis(found.offer, font, reading, found.wanted)
}

// The answer with so many rows for the job's faces: a job of few faces has its rows soon cleared.
fn answer_with<const N: usize>(
    job: &[u8],
    reading: Reading,
    request: u32,
    number: u32,
) -> Result<Option<Answer>, Refusal>
    requires { (length (job_of job.now).faces ≤ N) × (N ≤ most_faces) }
    ensures { answer_in result ≡ answer_call job.now (reading_number reading) request number }
{
    let mut rows = [Row::BLANK; N];
    match search_with(job, reading, &mut rows, request, number)? {
        None => Ok(None),
        Some(found) => Ok(Some(answer_found(job, reading, found)?)),
    }
}

// The reading of a number. Where there is none, that is the refusal unless the job is too long.
fn reading_over(job: &[u8], reading: u32) -> Result<Reading, Refusal>
    ensures { ReadingOver job.now reading result }
{
    let known = Reading::try_from(reading);
    if known.is_err() && sizes::MOST_BYTES < job.len() {
        return Err(Refusal::Overlong);
    }
    known
}

// The answer to a request and an offer number, under a reading: an offer, or none past the list.
pub fn offer_at(
    job: &[u8],
    reading: u32,
    request: u32,
    number: u32,
) -> Result<Option<Answer>, Refusal>
    ensures { answer_in result ≡ answer_call job.now reading request number }
{
    let reading = reading_over(job, reading)?;
    if tables::u16_at(job, 0) <= sizes::FEW_FACES {
        answer_with::<64>(job, reading, request, number)
    } else {
        answer_with::<256>(job, reading, request, number)
    }
}

// The offer of a number of a request, under a reading. Answers whether there is one; its 40 bytes are written.
pub fn offer(
    job: &[u8],
    reading: u32,
    request: u32,
    number: u32,
    out: &mut [u8],
) -> Result<bool, Refusal>
    ensures calls { Calls (offer_call job.now reading request number out.old) (result_in result) out.new }
    ensures demands { Demands job.now }
{
    if out.len() != sizes::RECORD {
        return Err(Refusal::WrongOutput);
    }
    match offer_at(job, reading, request, number)? {
        None => Ok(false),
        Some(answer) => {
            record::write_record(out, answer.offer, answer.synthesis, answer.charmap_index);
            Ok(true)
        }
    }
}
