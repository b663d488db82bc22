// The words of a synthesis. No contract can say what is printed: a call that prints answers a number of what it printed.
ghost use Rattle.std.specs.Prelude.{◌≡◌, min, nat_abs, IfOk};
ghost use Rattle.output.specs.Words.{embolden_word};

use crate::faces::Bits;
use matching::synthesis::{Setting, Synthesis};
use std::io;

// The word of emboldening.
pub fn embolden_word(on: bool) -> [u8; 2]
    ensures { result ≡ embolden_word «on» }
{
    if on { [b' ', b'b'] } else { [b' ', b'-'] }
}

// Prints a skew, and answers its magnitude: the number that stands behind the sign.
pub fn print_skew(rt: &impl Print, skew: i8) -> io::Result<u64>
    ensures { IfOk result (λ size. size ≡ nat_abs skew) }
{
    let sign = if skew < 0 { "-" } else { "" };
    let size = u64::from(skew.unsigned_abs());
    print!(rt; " {sign}{size}")?;
    Ok(size)
}

// A setting: the tag's four characters, and the bits of the value. No setting is a NaN.
fn print_setting(rt: &impl Print, setting: Setting) -> io::Result<()> {
    rt.write_all(b" ")?;
    rt.write_all(&setting.tag.to_be_bytes())?;
    print!(rt; "={}", Bits(setting.value))
}

// Prints the settings, and answers how many there are: it counts those that it printed.
pub fn print_settings(rt: &impl Print, synthesis: Synthesis) -> io::Result<u8>
    ensures { IfOk result (λ n. n ≡ min synthesis.len 3) }
{
    let mut printed = 0;
    for setting in &synthesis.settings[..synthesis.len.min(3) as usize] {
        print_setting(rt, *setting)?;
        printed += 1;
    }
    Ok(printed)
}
