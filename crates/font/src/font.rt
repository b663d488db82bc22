// Model for a font.
ghost use Rattle.std.specs.Prelude.{◌≡◌, cond, ◌<◌, ◌≤◌, leb, eqb};
ghost use Rattle.font.specs.First.{some};
ghost use Rattle.font.specs.Refusals.{refusal_in, checked};
ghost use Rattle.font.specs.Slant.{reading_number};
ghost use Rattle.font.specs.StatedAttributes.{width_of_class, post_angle, os2_style, from_os2_post, head_style, head_weight, from_head, from_tables, needs_post, loses_needed, read_attributes, stated_in};
ghost use Rattle.font.specs.Tables.{table_data};
ghost use Rattle.font.specs.Collection.{font_start};
ghost use Rattle.font.specs.Font.{fvar_of, axis_count_of, axis_at, axes_of, empty_font, refusal_at, font_refusal, refusal_under, face_of, from_font_ref, states_axis, stated_at};

use crate::attributes::{Angle, Attributes, FontStyle, FontWeight, FontWidth};
use crate::charmap::CharmapIndex;
use crate::collection::{font_beginning, font_count, font_start};
use crate::refusal::Refusal;
use crate::slant::Reading;
use crate::tables::{Directory, Table};
use crate::{charmap, single, tables};

// The tags of the tables that are read.
const OS2: u32 = 0x4F53_2F32;

const POST: u32 = 0x706F_7374;

const HEAD: u32 = 0x6865_6164;

const FVAR: u32 = 0x6676_6172;

// The ratios of the width classes 0 to 8.
const RATIOS: [f32; 9] = [0.5, 0.5, 0.625, 0.75, 0.875, 1.0, 1.125, 1.25, 1.5];

// An axis of variation. The tag is its four bytes as a big-endian number.
#[derive(Clone, Copy)]
pub struct AxisInfo {
    pub tag: u32,
    pub min: f32,
    pub default: f32,
    pub max: f32,
}

impl AxisInfo {
    // What stands where a face has no axis: the array is fixed.
    pub const NONE: AxisInfo = AxisInfo {
        tag: 0,
        min: 0.0,
        default: 0.0,
        max: 0.0,
    };
}

// A face by value. Axes past the count are no part of it: the array is fixed, since the library allocates nothing, and calls on a
// face refuse a larger count.
#[derive(Clone, Copy)]
pub struct FontInfo {
    pub attributes: Attributes,
    pub axes: [AxisInfo; 16],
    pub axis_count: usize,
    pub charmap_index: CharmapIndex,
}

// What the choice of a face looks at in a font.
#[derive(Clone, Copy)]
pub struct Stated {
    pub attributes: Attributes,
    pub has_axis: bool,
}

fn width_from_width_class(class: u16) -> FontWidth
    ensures { result.ratio ≡ width_of_class class }
{
    if class < 9 {
        FontWidth::new(RATIOS[class as usize])
    } else {
        FontWidth::new(2.0)
    }
}

#[tactic(auto, unfolding(crate::specs::StatedAttributes::present, crate::specs::StatedAttributes::post_angle))]
fn post_angle(post: &[u8], reading: Reading) -> Angle
    ensures { result ≡ post_angle (reading_number reading) post.now }
{
    if 0 < post.len() {
        let angle = single::fixed_to_single(tables::u32_at(post, 4));
        Angle::Degrees(reading.slant(angle))
    } else {
        Angle::Unstated
    }
}

// The `post` table is looked up for an oblique face alone.
#[tactic(auto, using(crate::proofs::Classes::lowest, crate::proofs::Classes::ninth), unfolding(crate::specs::StatedAttributes::os2_style))]
fn os2_style(directory: Directory, reading: Reading, os2: &[u8]) -> FontStyle
    ensures { result ≡ os2_style (reading_number reading) os2.now (table_data directory.entry.file.now directory.entry.start 0x706F7374 32) }
{
    let selection = tables::u16_at(os2, 62);
    if selection % 2 == 1 {
        FontStyle::Italic
    } else if selection / 512 % 2 == 1 {
        FontStyle::Oblique(post_angle(directory.data_for_tag(POST, 32), reading))
    } else {
        FontStyle::Normal
    }
}

#[tactic(auto, unfolding(crate::specs::StatedAttributes::from_os2_post, crate::specs::Single::single))]
fn from_os2_post(directory: Directory, reading: Reading, os2: &[u8]) -> Attributes
    ensures { result ≡ from_os2_post (reading_number reading) os2.now (table_data directory.entry.file.now directory.entry.start 0x706F7374 32) }
{
    let width = width_from_width_class(tables::u16_at(os2, 6));
    let style = os2_style(directory, reading, os2);
    let weight = FontWeight::new(tables::u16_at(os2, 4) as f32);
    Attributes::new(width, style, weight)
}

#[tactic(auto, unfolding(crate::specs::StatedAttributes::head_style, crate::specs::StatedAttributes::bit))]
fn head_style(mac_style: u16) -> FontStyle
    ensures { result ≡ head_style mac_style }
{
    if mac_style / 2 % 2 == 1 {
        FontStyle::Italic
    } else {
        FontStyle::Normal
    }
}

fn head_weight(mac_style: u16) -> FontWeight
    ensures { result.value ≡ head_weight mac_style }
{
    if mac_style % 2 == 1 {
        FontWeight::BOLD
    } else {
        FontWeight::NORMAL
    }
}

fn from_head(head: &[u8]) -> Attributes
    ensures { result ≡ from_head head.now }
{
    let mac_style = tables::u16_at(head, 44);
    let style = head_style(mac_style);
    let weight = head_weight(mac_style);
    Attributes::new(FontWidth::NORMAL, style, weight)
}

// The attributes by OS/2, else by `head`, else the defaults. Whether a table that they need is damaged is for `loses_needed` to
// say.
fn from_tables(directory: Directory, reading: Reading) -> Attributes
    ensures { result ≡ from_tables (reading_number reading) directory.entry.file.now directory.entry.start }
{
    let os2 = directory.data_for_tag(OS2, 78);
    if 0 < os2.len() {
        return from_os2_post(directory, reading, os2);
    }
    let head = directory.data_for_tag(HEAD, 54);
    if 0 < head.len() {
        return from_head(head);
    }
    Attributes::DEFAULT
}

// Whether OS/2 needs the angle of `post`: bit 9 is set and bit 0 is not.
#[tactic(auto, using(crate::proofs::Classes::lowest, crate::proofs::Classes::ninth), unfolding(crate::specs::StatedAttributes::needs_post))]
fn needs_post(os2: &[u8]) -> bool
    ensures { result ≡ needs_post os2.now }
{
    let selection = tables::u16_at(os2, 62);
    selection % 2 == 0 && selection / 512 % 2 == 1
}

// Whether a table that the attributes need is damaged.
#[tactic(auto, using(crate::proofs::Lookup::within, crate::proofs::Needed::by_post, crate::proofs::Needed::by_none, crate::proofs::Needed::by_os2, crate::proofs::Needed::by_head))]
fn loses_needed(directory: Directory) -> bool
    ensures { result ≡ loses_needed directory.entry.file.now directory.entry.start }
{
    match directory.find(OS2, 78) {
        Table::Found { offset, length } => {
            needs_post(&directory.file[offset..offset + length]) && directory.is_damaged(POST, 32)
        }
        Table::Damaged => true,
        Table::Absent => directory.is_damaged(HEAD, 54),
    }
}

// The attributes that the font of a number states under a reading: OS/2's before `head`'s before the defaults; or a refusal.
#[tactic(auto, using(std::proofs::lemmas::Result::err_from_is_err_and, crate::proofs::Readings::stated_none, crate::proofs::Readings::stated_lost, crate::proofs::Readings::stated_kept))]
pub fn read_attributes(file: &[u8], reading: u32, number: u16) -> Result<Attributes, Refusal>
    ensures { stated_in result ≡ read_attributes reading file.now (font_start file.now number) }
{
    let reading = Reading::try_from(reading)?;
    let Some(directory) = Directory::at(file, font_start(file, number)) else {
        return Ok(Attributes::DEFAULT);
    };
    if loses_needed(directory) {
        Err(Refusal::DamagedTable)
    } else {
        Ok(from_tables(directory, reading))
    }
}

// The number of axes that an `fvar` table gives.
#[tactic(auto, using(crate::proofs::Fields::out16), unfolding(crate::specs::Font::axis_count_of, crate::specs::StatedAttributes::present))]
fn axis_count(fvar: &[u8]) -> usize
    ensures { (result ≡ axis_count_of fvar.now) × (result < 65536) }
{
    let offset = tables::u16_at(fvar, 4) as usize;
    let count = tables::u16_at(fvar, 8) as usize;
    if tables::u16_at(fvar, 10) == 20 && offset + 20 * count <= fvar.len() {
        count
    } else {
        0
    }
}

#[tactic(auto, unfolding(crate::specs::Font::axis_at))]
fn axis_at(fvar: &[u8], i: usize) -> AxisInfo
    requires { i < 65536 }
    ensures { result ≡ axis_at fvar.now i }
{
    let at = tables::u16_at(fvar, 4) as usize + 20 * i;
    AxisInfo {
        tag: tables::u32_at(fvar, at),
        min: single::fixed_to_single(tables::u32_at(fvar, at + 4)),
        default: single::fixed_to_single(tables::u32_at(fvar, at + 8)),
        max: single::fixed_to_single(tables::u32_at(fvar, at + 12)),
    }
}

// The axis records of a face with `count` axes.
fn read_axes(fvar: &[u8], count: usize) -> [AxisInfo; 16]
    requires { count ≤ 16 }
    ensures { result ≡ axes_of fvar.now count }
{
    let mut axes = [AxisInfo::NONE; 16];
    for i in 0..count {
        axes[i] = axis_at(fvar, i);
    }
    axes
}

impl FontInfo {
    pub const EMPTY: FontInfo = FontInfo {
        attributes: Attributes::DEFAULT,
        axes: [AxisInfo::NONE; 16],
        axis_count: 0,
        charmap_index: CharmapIndex::NONE,
    };

    // The face of the font of a number under a reading, or the refusal 21, 22, 23, 25, 30 or 31. The three are not one value: other
    // calls take two of them, and each a different two.
    #[tactic(auto, using(std::proofs::lemmas::Result::err_from_is_err_and, crate::proofs::FaceOf::answered_none, crate::proofs::FaceOf::answered_font, crate::proofs::FaceOf::not_refused, crate::proofs::FaceOf::answered_face), unfolding(crate::specs::Refusals::refusal_in))]
    pub fn from_font_ref(file: &[u8], reading: u32, number: u16) -> Result<FontInfo, Refusal>
        ensures { checked empty_font result ≡ from_font_ref reading file.now number }
    {
        let reading = Reading::try_from(reading)?;
        font_refusal(file, number)?;
        Ok(read_font(file, reading, number))
    }
}

// The face of the font of a number under a reading, which `from_font_ref` does not refuse. A type of fonts that are not refused
// would have to be held for each face between two calls: a job's tables have no room for that.
pub fn read_font(file: &[u8], reading: Reading, number: u16) -> FontInfo
    requires { refusal_under (reading_number reading) file.now number ≡ 0 }
    ensures { result ≡ face_of (reading_number reading) file.now (font_start file.now number) }
{
    let start = font_start(file, number);
    let directory = Directory { file, start };
    let fvar = directory.data_for_tag(FVAR, 16);
    let count = axis_count(fvar);
    FontInfo {
        attributes: from_tables(directory, reading),
        axes: read_axes(fvar, count),
        axis_count: count,
        charmap_index: charmap::index_in(directory).unwrap_or(CharmapIndex::NONE),
    }
}

// Refuses a font with over 16 axes. A table that states no more gives no more.
#[tactic(auto, using(crate::proofs::LookedAt::few_stated_fvar), unfolding(crate::specs::Font::fvar_of, crate::specs::Refusals::refusal_in, crate::specs::Refusals::number))]
fn axes_refusal(directory: Directory) -> Result<(), Refusal>
    ensures { refusal_in result ≡ cond (leb (axis_count_of (fvar_of directory.entry.file.now directory.entry.start)) 16) 0 23 }
{
    let fvar = directory.data_for_tag(FVAR, 16);
    if tables::u16_at(fvar, 8) <= 16 || axis_count(fvar) <= 16 {
        Ok(())
    } else {
        Err(Refusal::ManyAxes)
    }
}

// Whether a font is refused for its tables.
#[tactic(auto, unfolding(crate::specs::Font::refusal_at, crate::specs::Refusals::refusal_in, crate::specs::Refusals::number))]
fn tables_refusal(directory: Directory) -> Result<(), Refusal>
    ensures { refusal_in result ≡ refusal_at directory.entry.file.now directory.entry.start }
{
    if loses_needed(directory) {
        return Err(Refusal::DamagedTable);
    }
    if charmap::has_index_in(directory) {
        axes_refusal(directory)
    } else {
        Err(Refusal::NoCharmap)
    }
}

// Whether the font of a number is refused, under every reading. Of its refusals `read_attributes` alone gives one itself,
// that of a damaged table.
#[tactic(auto, unfolding(crate::specs::Font::font_refusal, crate::specs::Collection::header_fits, crate::specs::Font::refusal_at, crate::specs::Refusals::refusal_in, crate::specs::Refusals::number))]
pub fn font_refusal(file: &[u8], number: u16) -> Result<(), Refusal>
    ensures { refusal_in result ≡ font_refusal file.now number }
{
    if file.len() < 12 {
        return Err(Refusal::BadDirectory);
    }
    if (number as u32) < font_count(file) {
        let font = font_beginning(file, number);
        match Directory::of_version(file, font.start, font.version) {
            Some(directory) => tables_refusal(directory),
            None => Err(Refusal::BadDirectory),
        }
    } else {
        Err(Refusal::NoFont)
    }
}

// Whether one of `count` axis records has the tag.
fn some_has_tag(fvar: &[u8], count: usize, tag: u32) -> bool
    requires { count < 65536 }
    ensures { result ≡ some (λ i. eqb (axis_at fvar.now i).tag tag) count }
{
    let offset = tables::u16_at(fvar, 4) as usize;
    for i in 0..count {
        if tables::u32_at(fvar, offset + 20 * i) == tag {
            return true;
        }
    }
    false
}

// Whether a font gives an axis with the tag.
#[tactic(auto, using(crate::proofs::First::some_first), unfolding(crate::specs::Font::states_axis, crate::specs::Font::fvar_of))]
fn states_axis(directory: Directory, tag: u32) -> bool
    ensures { result ≡ states_axis directory.entry.file.now directory.entry.start tag }
{
    let fvar = directory.data_for_tag(FVAR, 16);
    some_has_tag(fvar, axis_count(fvar), tag)
}

// The attributes that the font of a number states under a reading, and whether it gives an axis with the tag.
// `from_font_ref` does not refuse it, which is asked for the reason that `read_font` names.
#[tactic(auto, using(crate::proofs::FaceOf::fits_taken), unfolding(crate::specs::Font::stated_at))]
pub fn read_stated(file: &[u8], reading: Reading, number: u16, tag: u32) -> Stated
    requires { refusal_under (reading_number reading) file.now number ≡ 0 }
    ensures { result ≡ stated_at (reading_number reading) file.now (font_start file.now number) tag }
{
    let start = font_start(file, number);
    let directory = Directory { file, start };
    Stated {
        attributes: from_tables(directory, reading),
        has_axis: states_axis(directory, tag),
    }
}
