// The charmap index: which `cmap` subtable maps characters to glyphs.
ghost use Rattle.std.specs.Prelude.{◌≡◌, Some, ◌+◌, ◌-◌, ◌*◌, ◌/◌, ◌^◌, ◌≤◌, ◌<◌, min, length, ltb, IfSome};
ghost use Rattle.font.specs.First.{least_below};
ghost use Rattle.font.specs.Tables.{u16_at};
ghost use Rattle.font.specs.Collection.{font_start};
ghost use Rattle.font.specs.Charmap.{class_number, best_number, class_of, record_class, some_qualifies, best_class, best_record, index_of, charmap_index_of};
ghost use Rattle.font.specs.Font.{has_index};

use crate::collection::font_start;
use crate::tables;
use crate::tables::{Directory, Table};

// The tag of the table.
const CMAP: u32 = 0x636D_6170;

// The file offset of a subtable, and what its encoding asks of a lookup.
#[derive(Clone, Copy)]
pub struct CharmapIndex {
    pub subtable_offset: usize,
    pub is_symbol: bool,
    pub is_mac_roman: bool,
}

// The classes of encoding records, the best first.
#[derive(Clone, Copy, PartialEq, Eq, PartialOrd, Ord)]
enum Class {
    Full,
    Basic,
    Symbol,
    MacRoman,
}

// A record of `cmap` and its class.
#[derive(Clone, Copy)]
struct BestRecord {
    class: Class,
    i: usize,
}

#[tactic(auto, unfolding(crate::specs::Charmap::class_of, crate::specs::Charmap::is_pair, crate::specs::Charmap::class_number))]
fn class_of(platform: u16, encoding: u16) -> Option<Class>
    ensures { class_number result ≡ class_of platform encoding }
{
    match (platform, encoding) {
        (3, 10) | (0, 4) | (0, 6) => Some(Class::Full),
        (3, 1) | (0, 0..=3) => Some(Class::Basic),
        (3, 0) => Some(Class::Symbol),
        (1, 0) => Some(Class::MacRoman),
        _ => None,
    }
}

// The class of a record that lies in the table; none where its subtable's format does not.
#[tactic(auto, using(crate::proofs::Records::class_in), unfolding(crate::specs::Charmap::class_number, crate::specs::Charmap::record_class, crate::specs::Charmap::qualifies, crate::specs::Charmap::lies_in, crate::specs::Charmap::pair_class, crate::specs::Charmap::subtable_offset_of))]
fn record_class(cmap: &[u8], i: usize) -> Option<Class>
    requires { 12 + 8 * i ≤ length cmap.now }
    ensures { class_number result ≡ record_class cmap.now i }
{
    let offset = tables::u32_in(cmap, 8 + 8 * i) as usize;
    if cmap.len() < offset + 2 {
        return None;
    }
    class_of(
        tables::u16_in(cmap, 4 + 8 * i),
        tables::u16_in(cmap, 6 + 8 * i),
    )
}

// Whether a class is better than the best so far.
#[tactic(auto, using(crate::proofs::Records::class_order))]
fn is_better(class: Class, best: BestRecord) -> bool
    ensures { result ≡ ltb (class_number (Some class)) (class_number (Some best.class)) }
{
    class < best.class
}

// The number of the first records that are looked at: those that the table states and that lie whole in it. The table's four bytes
// are asked here, and by `best_record` and `index_of`, one below the other.
fn whole_records(cmap: &[u8]) -> usize
    requires { 4 ≤ length cmap.now }
    ensures { result ≡ min (u16_at cmap.now 2) ((length cmap.now - 4) / 8) }
{
    let count = tables::u16_in(cmap, 2) as usize;
    count.min((cmap.len() - 4) / 8)
}

// The first record of the best class, where `first` is the first that has a class. No record is better than one of the class `Full`,
// so such a one ends the search.
fn best_from(cmap: &[u8], first: BestRecord) -> BestRecord
    requires is_stated { (first.i < u16_at cmap.now 2) × (12 + 8 * first.i ≤ length cmap.now) }
    requires is_first { (class_number (Some first.class) ≡ record_class cmap.now first.i) × (least_below 4 (record_class cmap.now) first.i ≡ 4) }
    ensures { (class_number (Some result.class) ≡ best_class cmap.now) × ((result.i ≡ best_record cmap.now) × (12 + 8 * result.i ≤ length cmap.now)) }
{
    if first.class == Class::Full {
        return first;
    }
    let mut best = first;
    for later in first.i + 1..whole_records(cmap) {
        if let Some(class) = record_class(cmap, later) {
            if is_better(class, best) {
                best = BestRecord { class, i: later };
                if class == Class::Full {
                    return best;
                }
            }
        }
    }
    best
}

// The first record of the best class.
// From the first that has a class on, the best so far is no `Option`, which would be asked about at each of up to 65,535 records.
fn best_record(cmap: &[u8]) -> Option<BestRecord>
    requires { 4 ≤ length cmap.now }
    ensures { (best_number result ≡ best_class cmap.now) × IfSome result (λ b. (b.i ≡ best_record cmap.now) × (12 + 8 * b.i ≤ length cmap.now)) }
{
    for i in 0..whole_records(cmap) {
        if let Some(class) = record_class(cmap, i) {
            return Some(best_from(cmap, BestRecord { class, i }));
        }
    }
    None
}

// The index of the best record of a `cmap` table that lies at `offset` in the file.
fn index_of(offset: usize, cmap: &[u8]) -> Option<CharmapIndex>
    requires { (offset < 2 ^ 63) × (4 ≤ length cmap.now) }
    ensures { result ≡ index_of offset cmap.now }
{
    let best = best_record(cmap)?;
    let subtable = tables::u32_in(cmap, 8 + 8 * best.i) as usize;
    Some(CharmapIndex {
        subtable_offset: offset + subtable,
        is_symbol: best.class == Class::Symbol,
        is_mac_roman: best.class == Class::MacRoman,
    })
}

// The charmap index of a font.
pub(crate) fn index_in(directory: Directory) -> Option<CharmapIndex>
    ensures { result ≡ charmap_index_of directory.entry.file.now directory.entry.start }
{
    match directory.find(CMAP, 4) {
        Table::Found { offset, length } => {
            index_of(offset, &directory.file[offset..offset + length])
        }
        Table::Damaged | Table::Absent => None,
    }
}

// Whether a record qualifies. The first that does ends the search.
fn some_qualifies(cmap: &[u8]) -> bool
    ensures { result ≡ some_qualifies cmap.now }
{
    if cmap.len() < 4 {
        return false;
    }
    for i in 0..whole_records(cmap) {
        if record_class(cmap, i).is_some() {
            return true;
        }
    }
    false
}

// Whether a font has a charmap index.
#[tactic(auto, using(crate::proofs::Records::font_has))]
pub(crate) fn has_index_in(directory: Directory) -> bool
    ensures { result ≡ has_index (charmap_index_of directory.entry.file.now directory.entry.start) }
{
    some_qualifies(directory.data_for_tag(CMAP, 4))
}

impl CharmapIndex {
    // The zeros that stand for none, in a face that is refused for it.
    pub const NONE: CharmapIndex = CharmapIndex {
        subtable_offset: 0,
        is_symbol: false,
        is_mac_roman: false,
    };

    // The charmap index of the font of a number.
    #[tactic(auto, unfolding(crate::specs::Charmap::charmap_index_of, crate::specs::Charmap::index_in, crate::specs::Tables::find_table))]
    pub fn new(file: &[u8], number: u16) -> Option<CharmapIndex>
        ensures { result ≡ charmap_index_of file.now (font_start file.now number) }
    {
        index_in(Directory::at(file, font_start(file, number))?)
    }
}
