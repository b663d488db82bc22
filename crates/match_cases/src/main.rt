// Reads a list of families from standard input, and prints a line for each: the choice, the equal list, the default, and
// the synthesis of the chosen face, or of the default face where none is chosen: under reading 0, and after a bar under 1.
//
// The files `stdin` and `stdout` of this crate are what `cargo run --release -- families --out DIR` writes in
// `rust/reference`: the list, and what the original sources answer on it. `rust/README.md` says what both hold, in
// "The list of families". A case that is refused prints `refused N`; the list has none.
#![tactic(auto)]

ghost use Rattle.std.specs.Prelude.{◌^◌, ◌<◌, ◌≤◌, IfOk};

use font::attributes::{Angle, Attributes, FontStyle, FontWeight, FontWidth};
use font::font::{AxisInfo, FontInfo};
use font::refusal::Refusal;
use font::tables;
use matching::face;
use matching::family::FamilyInfo;
use matching::matching::{match_font, match_fonts};
use matching::stages::Places;
use matching::synthesis::Synthesis;
use output::faces::Choice;
use output::words;
use std::io;
use std::io::Read;

// Reading. What lies past the end reads as zeros. `query` has the like for a job and keeps them to itself; a list of faces has
// another layout.

fn byte_at(s: &[u8], at: usize) -> u8 {
    s.get(at).copied().unwrap_or(0)
}

// The single of a bit pattern, or 0 for a NaN's, which the list does not hold. By the bits: `from_bits` asks that they are no NaN's.
fn single_of(bits: u32) -> f32 {
    if bits % 0x8000_0000 <= 0x7F80_0000 {
        return f32::from_bits(bits);
    }
    0.0
}

fn single_at(s: &[u8], at: usize) -> f32 {
    single_of(tables::u32_at(s, at))
}

// A position is bounded where a sum is made with it, as in the crate `query`.
fn style_at(s: &[u8], at: usize) -> FontStyle
    requires { at < 2 ^ 32 }
{
    match byte_at(s, at) {
        0 => FontStyle::Normal,
        1 => FontStyle::Italic,
        2 => FontStyle::Oblique(Angle::Unstated),
        _ => FontStyle::Oblique(Angle::Degrees(single_at(s, at + 1))),
    }
}

// The 13 bytes of attributes: ratio, kind, angle, weight.
fn attributes_at(s: &[u8], at: usize) -> Attributes
    requires { at < 2 ^ 31 }
{
    let width = FontWidth::new(single_at(s, at));
    let style = style_at(s, at + 4);
    let weight = FontWeight::new(single_at(s, at + 9));
    Attributes::new(width, style, weight)
}

// The 16 bytes of an axis: tag, minimum, default, maximum.
fn axis_at(s: &[u8], at: usize) -> AxisInfo
    requires { at < 2 ^ 32 }
{
    AxisInfo {
        tag: tables::u32_at(s, at),
        min: single_at(s, at + 4),
        default: single_at(s, at + 8),
        max: single_at(s, at + 12),
    }
}

fn axes_at(s: &[u8], at: usize, count: usize) -> [AxisInfo; 16]
    requires { at < 2 ^ 31 }
{
    let mut axes = [AxisInfo::NONE; 16];
    for i in 0..count.min(16) {
        axes[i] = axis_at(s, at + 16 * i);
    }
    axes
}

// A face: attributes, the count of axes, axes.
fn face_at(s: &[u8], at: usize) -> FontInfo
    requires { at < 2 ^ 30 }
{
    let axis_count = byte_at(s, at + 13) as usize;
    FontInfo {
        attributes: attributes_at(s, at),
        axes: axes_at(s, at + 14, axis_count),
        axis_count,
        ..FontInfo::EMPTY
    }
}

// How many bytes a face takes.
fn face_length(s: &[u8], at: usize) -> usize
    requires { at < 2 ^ 30 }
    ensures { result < 4096 }
{
    14 + 16 * byte_at(s, at + 13) as usize
}

// The faces of a case, the first 64 of them, and where they end.
#[derive(Drop)]
struct Faces {
    fonts: [FontInfo; 64],
    end: usize,
}

fn faces_at(s: &[u8], start: usize, count: u8) -> Faces
    requires { start < 4096 }
    ensures { (start ≤ result.end) × (result.end < 2 ^ 21) }
{
    let mut fonts = [FontInfo::EMPTY; 64];
    let mut at = start;
    for i in 0..count {
        if i < 64 {
            fonts[i as usize] = face_at(s, at);
        }
        at += face_length(s, at);
    }
    Faces { fonts, end: at }
}

// Printing.

// The places, joined by commas.
fn print_places(rt: &impl Print, list: Places) -> io::Result<()> {
    if list.count == 0 {
        return rt.write_all(b" -");
    }
    print!(rt; " {}", list.places[0])?;
    for place in list.places.iter().take(list.count).skip(1) {
        print!(rt; ",{place}")?;
    }
    Ok(())
}

fn print_synthesis(rt: &impl Print, synthesis: Synthesis) -> io::Result<()> {
    rt.write_all(&words::embolden_word(synthesis.embolden))?;
    words::print_skew(rt, synthesis.skew)?;
    words::print_settings(rt, synthesis)?;
    Ok(())
}

// What the calls answer on a case. The syntheses are those of the chosen face, or of the default face where none is chosen, under
// reading 0 and under reading 1.
#[derive(Clone, Copy)]
struct Answers {
    chosen: Option<usize>,
    list: Places,
    default: usize,
    old: Synthesis,
    new: Synthesis,
}

impl Answers {
    fn new(
        fonts: [FontInfo; 64],
        count: usize,
        request: Attributes,
        synthesize_style: bool,
    ) -> Result<Self, Refusal> {
        let Attributes {
            width,
            style,
            weight,
        } = request;
        let chosen = match_font(fonts, count, width, style, weight, synthesize_style)?;
        let list = match_fonts(fonts, count, width, style, weight, synthesize_style)?;
        let family = FamilyInfo::new(fonts, count)?;
        let default = family.default_font;
        let face = family.match_font(chosen.unwrap_or(default))?;
        Ok(Answers {
            chosen,
            list,
            default,
            old: face::synthesis(face, 0, width, style, weight)?,
            new: face::synthesis(face, 1, width, style, weight)?,
        })
    }
}

fn print_answers(rt: &impl Print, answers: Answers) -> io::Result<()> {
    print!(rt; "{}", Choice(answers.chosen))?;
    print_places(rt, answers.list)?;
    print!(rt; " {}", answers.default)?;
    print_synthesis(rt, answers.old)?;
    rt.write_all(b" |")?;
    print_synthesis(rt, answers.new)
}

// The line of the case that the bytes start with. Answers how many bytes the case takes.
fn print_case(rt: &impl Print, case: &[u8]) -> io::Result<usize>
    ensures { IfOk result (λ n. (15 ≤ n) × (n < 2 ^ 21)) }
{
    let request = attributes_at(case, 1);
    let count = byte_at(case, 14);
    let Faces { fonts, end } = faces_at(case, 15, count);
    match Answers::new(fonts, count as usize, request, byte_at(case, 0) != 0) {
        Ok(answers) => print_answers(rt, answers)?,
        Err(refusal) => print!(rt; "refused {refusal}")?,
    }
    rt.write_all(b"\n")?;
    Ok(end)
}

// The position goes on by what each case takes. `offer_cases` has the same loop and `main`: shared, they would take a closure that
// prints, and be no shorter.
fn print_list(rt: &impl Print, list: &[u8]) -> io::Result<()> {
    let mut at: usize = 0;
    while at < list.len() {
        at += print_case(rt, &list[at..])?;
    }
    Ok(())
}

// A list has at most 600,000 bytes: what lies past them is not read.
fn main(rt: HostRuntime) -> io::Result<()> {
    let mut list = Vec::new(rt.alloc());
    rt.reader().take(600000).read_to_end(&mut list)?;
    print_list(&rt, &list)
}
