// The fonts of a file: one, or those of a collection, by OpenType's TTC header.
ghost use Rattle.std.specs.Prelude.{◌≡◌, true, ◌<◌};
ghost use Rattle.font.specs.Tables.{u32_at};
ghost use Rattle.font.specs.Collection.{is_collection, font_count, font_start};

use crate::tables;

// The first four bytes of a collection.
const TTCF: u32 = 0x7474_6366;

#[tactic(auto, unfolding(crate::specs::Collection::is_collection))]
pub fn is_collection(file: &[u8]) -> bool
    ensures { result ≡ is_collection file.now }
{
    tables::u32_at(file, 0) == TTCF
}

// How many fonts the file states: none where a collection's header is cut, and one where it is no collection.
#[tactic(auto, unfolding(crate::specs::Collection::font_count))]
pub fn font_count(file: &[u8]) -> u32
    ensures { result ≡ font_count file.now }
{
    if is_collection(file) {
        tables::u32_at(file, 8)
    } else {
        1
    }
}

// Where the directory of a collection's font begins; the end of the file where it has no such font, or not all its offsets.
#[tactic(auto, using(crate::proofs::Collections::none, crate::proofs::Collections::stated, crate::proofs::Collections::at_offset, crate::proofs::Collections::offsets_cut))]
fn collection_start(file: &[u8], number: u16) -> usize
    requires { is_collection file.now ≡ true }
    ensures { result ≡ font_start file.now number }
{
    let count = tables::u32_at(file, 8) as usize;
    let asked = number as usize;
    if asked < count && 12 + 4 * count <= file.len() {
        tables::u32_at(file, 12 + 4 * asked) as usize
    } else {
        file.len()
    }
}

// Where the directory of a font begins, and the number that stands there.
#[derive(Clone, Copy)]
pub(crate) struct Beginning {
    pub start: usize,
    pub version: u32,
}

// Where the directory of the font of a number begins, of those that the file states.
#[tactic(auto, using(crate::proofs::Collections::one, crate::proofs::Collections::at_first), unfolding(crate::specs::Collection::is_collection))]
pub(crate) fn font_beginning(file: &[u8], number: u16) -> Beginning
    requires { number < font_count file.now }
    ensures { (result.start ≡ font_start file.now number) × (result.version ≡ u32_at file.now result.start) }
{
    let first = tables::u32_at(file, 0);
    if first == TTCF {
        let start = collection_start(file, number);
        Beginning {
            start,
            version: tables::u32_at(file, start),
        }
    } else {
        Beginning {
            start: 0,
            version: first,
        }
    }
}

// Where the directory of the font of a number begins; the end of the file where there is no such font.
#[tactic(auto, using(crate::proofs::Collections::at_first, crate::proofs::Collections::no_other))]
pub(crate) fn font_start(file: &[u8], number: u16) -> usize
    ensures { result ≡ font_start file.now number }
{
    if is_collection(file) {
        collection_start(file, number)
    } else if number == 0 {
        0
    } else {
        file.len()
    }
}
