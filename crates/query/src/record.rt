// The 40 bytes of an offer.
ghost use Rattle.std.specs.Prelude.{◌≡◌, false, ◌++◌, ◌+◌, ◌^◌, ◌≤◌, ◌<◌, length, take};
ghost use Rattle.std.specs.Option.{IfSome};
ghost use Rattle.std.specs.Float.Ieee.{is_nan};
ghost use Rattle.matching.specs.Synthesis.{laid_out};
ghost use Rattle.query.specs.Sizes.{record_size};
ghost use Rattle.query.specs.Record.{head_bytes, setting_bytes, index_bytes, Numbers, record_bytes};

use crate::answer::Offer;
use font::charmap::CharmapIndex;
use matching::synthesis::{Setting, Synthesis};

// Puts bytes at a position. Those before it stay as they are.
fn put<const N: usize>(out: &mut [u8], at: usize, bytes: [u8; N])
    requires { at + N ≤ length out.old }
    ensures { take (at + N) out.new ≡ take at out.old ++ bytes.entry }
{
    out[at..at + N].copy_from_slice(&bytes);
}

// The offer's family and place, emboldening, skew, and how many settings follow. The record is a slice of the caller's output, so its
// length is asked here, at its end and of the whole.
fn put_head(out: &mut [u8], offer: Offer, embolden: bool, skew: i8, count: u8)
    requires { length out.old ≡ record_size }
    ensures { take 8 out.new ≡ head_bytes offer embolden skew count }
{
    put(&mut *out, 0, offer.family.to_be_bytes());
    put(&mut *out, 2, offer.place.to_be_bytes());
    put(out, 4, [u8::from(embolden), skew.cast_unsigned(), count, 0]);
}

// A setting's tag and value, or zeros.
fn put_slot(out: &mut [u8], at: usize, setting: Option<Setting>)
    requires { (at + 8 ≤ length out.old) × IfSome setting (λ s. is_nan s.value ≡ false) }
    ensures { take (at + 8) out.new ≡ take at out.old ++ setting_bytes setting }
{
    match setting {
        None => put(out, at, [0; 8]),
        Some(setting) => {
            let value = setting.value.to_bits();
            put(&mut *out, at, setting.tag.to_be_bytes());
            put(out, at + 4, value.to_be_bytes());
        }
    }
}

// The charmap index, at the end.
fn put_index(out: &mut [u8], index: CharmapIndex)
    requires { (length out.old ≡ record_size) × (index.subtable_offset < 2 ^ 32) }
    ensures { take record_size out.new ≡ take 32 out.old ++ index_bytes index }
{
    let offset = index.subtable_offset as u32;
    let symbol = u8::from(index.is_symbol);
    let mac_roman = u8::from(index.is_mac_roman);
    put(&mut *out, 32, offset.to_be_bytes());
    put(out, 36, [symbol, mac_roman, 0, 0]);
}

// The record of an offer. A slot past the count of settings is zero.
pub(crate) fn write_record(out: &mut [u8], offer: Offer, synthesis: Synthesis, index: CharmapIndex)
    requires { (length out.old ≡ record_size) × (index.subtable_offset < 2 ^ 32) × Numbers (laid_out synthesis) }
    ensures { out.new ≡ record_bytes offer (laid_out synthesis) index }
{
    let count = synthesis.len;
    put_head(&mut *out, offer, synthesis.embolden, synthesis.skew, count);
    put_slot(&mut *out, 8, (0 < count).then_some(synthesis.settings[0]));
    put_slot(&mut *out, 16, (1 < count).then_some(synthesis.settings[1]));
    put_slot(&mut *out, 24, (2 < count).then_some(synthesis.settings[2]));
    put_index(out, index);
}
