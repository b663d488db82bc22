// Reads a list of fonts from standard input, and prints a line for each: what the font reading gives, or its refusal.
//
// The files `stdin` and `stdout` of this crate are what `cargo run --release -- fonts --out DIR` writes in
// `rust/reference`: the list, and what the original sources answer on it, or `rust/plain` for a font that is refused with
// 31, since the original takes a damaged table for absent. `rust/README.md` says what both hold, in "The list of fonts".
#![tactic(auto)]

use font::font::FontInfo;
use font::tables;
use output::faces::{Axes, Index, Outcome, Stated};
use std::{fmt, io};

// A face, with how many axes it has before them.
#[derive(Clone, Copy)]
struct Face(FontInfo);

impl fmt::Display for Face {
    fn fmt<W: fmt::Write>(&self, f: &mut fmt::Formatter<W>) -> fmt::Result {
        let Face(face) = *self;
        let FontInfo {
            attributes,
            axis_count,
            charmap_index,
            ..
        } = face;
        write!(
            f,
            "read {} {} {axis_count}{}",
            Stated(attributes),
            Index(charmap_index),
            Axes(face)
        )
    }
}

// The lines of a list: for each font a 32-bit length, the file, a 32-bit reading, and the 16-bit number of the font in the
// file. A font that is cut off ends the list. The position goes on by what each takes.
fn print_list(rt: &impl Print, list: &[u8]) -> io::Result<()> {
    let mut at: usize = 0;
    while at < list.len() {
        let start = at + 4;
        let end = start + tables::u32_at(list, at) as usize;
        if list.len() < end + 6 {
            return Ok(());
        }
        let reading = tables::u32_at(list, end);
        let number = tables::u16_at(list, end + 4);
        let read = FontInfo::from_font_ref(&list[start..end], reading, number);
        println!(rt; "{}", Outcome(read.map(Face)))?;
        at = end + 6;
    }
    Ok(())
}

// A list has at most 327,680 bytes: what lies past them is not read. An array of that size can be checked, and nothing can run out.
fn main(rt: HostRuntime) -> io::Result<()> {
    let mut space = [0u8; 327680];
    let n = input::read_full(&rt, &mut space)?;
    print_list(&rt, &space[..n])
}
