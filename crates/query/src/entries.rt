// The entries of a job. Each function takes the job and the entry's position, and answers the refusal or the next position.
ghost use Rattle.std.specs.Prelude.{◌≡◌, true, false};
ghost use Rattle.query.specs.Reader.{ended, end_in};
ghost use Rattle.query.specs.Fields.{half, spare_word, byte_counted};
ghost use Rattle.query.specs.Items.{RunsTo};
ghost use Rattle.query.specs.Entries.{read_face, read_style, style_or_spare, read_given, read_pair, read_override, read_family, read_requested, read_request};

use crate::job::Refused;
use crate::{fields, sizes};
use font::tables;

// Held byte, length and font file, and the number behind a collection's.
pub(crate) fn face(job: &[u8], at: usize) -> Result<usize, Refused>
    ensures { end_in result ≡ ended (read_face job.now at) }
{
    let held = fields::held(job, at)?;
    fields::font_file(job, held)
}

// A number that is given, or a spare field.
fn or_spare<F: FnOnce(usize) -> Result<usize, Refused>>(
    job: &[u8],
    at: usize,
    given: bool,
    number: F,
) -> Result<usize, Refused>
    requires { F.IsAlwaysCallable number }
    ensures given { given ≡ true → F.post number at result }
    ensures spare { given ≡ false → end_in result ≡ ended (spare_word job.now at) }
{
    if given {
        number(at)
    } else {
        fields::spare_word(job, at)
    }
}

// Kind and angle.
fn style(job: &[u8], at: usize) -> Result<usize, Refused>
    ensures { end_in result ≡ ended (read_style job.now at) }
{
    let kind = fields::kind(job, at)?;
    let stated = fields::byte_at(job, at) == 3;
    or_spare(job, kind, stated, |at| fields::value(job, at))
}

fn style_or_spare(job: &[u8], at: usize, given: bool) -> Result<usize, Refused>
    ensures { end_in result ≡ ended (style_or_spare given job.now at) }
{
    if given {
        return style(job, at);
    }
    let kind = fields::spare_byte(job, at)?;
    fields::spare_word(job, kind)
}

// Ratio, style and weight of an override, by its mask.
fn given(job: &[u8], at: usize, mask: u8) -> Result<usize, Refused>
    ensures { end_in result ≡ ended (read_given mask job.now at) }
{
    let width = or_spare(job, at, mask % 2 == 1, |at| fields::ratio(job, at))?;
    let style = style_or_spare(job, width, mask / 2 % 2 == 1)?;
    or_spare(job, style, mask / 4 % 2 == 1, |at| fields::value(job, at))
}

// Tag and value.
fn pair(job: &[u8], at: usize) -> Result<usize, Refused>
    ensures { end_in result ≡ ended (read_pair job.now at) }
{
    let tag = fields::bytes(job, at, 4)?;
    fields::value(job, tag)
}

// `count` items, one after another.
fn run<F: Fn(usize) -> Result<usize, Refused>>(
    at: usize,
    count: usize,
    one: F,
) -> Result<usize, Refused>
    requires { F.IsAlwaysCallable one }
    ensures { RunsTo (λ p x. F.post one p x) count at result }
{
    let mut place = at;
    for _ in 0..count {
        place = one(place)?;
    }
    Ok(place)
}

// Axis pair count and pairs.
fn pairs(job: &[u8], at: usize) -> Result<usize, Refused>
    ensures { end_in result ≡ ended (byte_counted read_pair job.now at) }
{
    let count = fields::bytes(job, at, 1)?;
    let pairs = fields::byte_at(job, at) as usize;
    run(count, pairs, |at| pair(job, at))
}

// An override, in a job of `faces` faces.
pub(crate) fn override_entry(job: &[u8], at: usize, faces: u16) -> Result<usize, Refused>
    ensures { end_in result ≡ ended (read_override faces job.now at) }
{
    let face = fields::face_number(job, at, faces)?;
    let mask = fields::mask(job, face)?;
    let given = given(job, mask, fields::byte_at(job, face))?;
    pairs(job, given)
}

// A family, in a job of `faces` faces.
pub(crate) fn family(job: &[u8], at: usize, faces: u16) -> Result<usize, Refused>
    ensures { end_in result ≡ ended (read_family faces job.now at) }
{
    let count = fields::count(job, at, sizes::MOST_PLACES)?;
    let members = tables::u16_at(job, at) as usize;
    run(count, members, |at| fields::face_number(job, at, faces))
}

// A byte count and 16-bit numbers.
fn numbers(job: &[u8], at: usize) -> Result<usize, Refused>
    ensures { end_in result ≡ ended (byte_counted half job.now at) }
{
    let count = fields::bytes(job, at, 1)?;
    fields::halves(job, count, fields::byte_at(job, at) as usize)
}

// Ratio, style and weight of a request.
fn requested(job: &[u8], at: usize) -> Result<usize, Refused>
    ensures { end_in result ≡ ended (read_requested job.now at) }
{
    let width = fields::ratio(job, at)?;
    let style = style(job, width)?;
    fields::value(job, style)
}

pub(crate) fn request(job: &[u8], at: usize) -> Result<usize, Refused>
    ensures { end_in result ≡ ended (read_request job.now at) }
{
    let most = fields::bytes(job, at, 2)?;
    let attributes = requested(job, most)?;
    let families = numbers(job, attributes)?;
    numbers(job, families)
}
