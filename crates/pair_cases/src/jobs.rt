// The jobs, each from its first byte.
ghost use Rattle.std.specs.Prelude.{◌≡◌, ◌<◌};

use crate::fonts;
use crate::fonts::{Font, MAC_ROMAN, Record, SYMBOL, UNICODE, WGHT};
use crate::put::Writer;
use std::alloc::{AllocError, Global};

pub const ONE: u32 = 0x3F80_0000;

// Bits of the ratios 0.75, 1 and 1.25.
const RATIOS: [u32; 3] = [0x3F40_0000, 0x3F80_0000, 0x3FA0_0000];

// Bits of the weights 100 to 900.
const WEIGHTS: [u32; 9] = [
    0x42C8_0000,
    0x4348_0000,
    0x4396_0000,
    0x43C8_0000,
    0x43FA_0000,
    0x4416_0000,
    0x442F_0000,
    0x4448_0000,
    0x4461_0000,
];

const RECORDS: [Record; 3] = [UNICODE, SYMBOL, MAC_ROMAN];

// A style is 10 degrees where it has an angle.
fn style(out: &mut Writer, kind: u8) -> Result<(), AllocError> {
    out.byte(kind)?;
    out.word(if kind == 3 { 0x4120_0000 } else { 0 })
}

fn face(out: &mut Writer, is_held: bool, font: Font) -> Result<(), AllocError> {
    out.byte(is_held as u8)?;
    fonts::file(out, font)
}

fn font_of(weight: u16, record: Record, axes: u8) -> Font {
    Font {
        weight,
        record,
        axes,
        gap: 0,
    }
}

// A request without its two lists.
fn asked(out: &mut Writer, most: u16, ratio: u32, kind: u8, weight: u32) -> Result<(), AllocError> {
    out.half(most)?;
    out.word(ratio)?;
    style(out, kind)?;
    out.word(weight)
}

// The two lists of a request: family 0 alone in the first, and `again` times in the second.
fn lists(out: &mut Writer, again: u8) -> Result<(), AllocError> {
    out.byte(1)?;
    out.half(0)?;
    out.byte(again)?;
    out.numbers(again as u16, 0, 0, 1)
}

// The small job: weight 400, 700 with a symbol record, 700 with Mac Roman and three axes; one family; four requests.

fn small_faces(out: &mut Writer, axes: u8) -> Result<(), AllocError> {
    out.half(3)?;
    face(out, true, font_of(400, UNICODE, axes))?;
    face(out, true, font_of(700, SYMBOL, 0))?;
    face(out, true, font_of(700, MAC_ROMAN, 3))
}

fn small_requests(out: &mut Writer, ratio: u32) -> Result<(), AllocError> {
    out.half(4)?;
    asked(out, 8, ratio, 0, 0x442F_0000)?;
    lists(out, 0)?;
    asked(out, 65535, 0x3F40_0000, 1, 0x446D_8000)?;
    lists(out, 1)?;
    asked(out, 0, ONE, 0, 0x442F_0000)?;
    lists(out, 0)?;
    asked(out, 2, ONE, 0, 0x442F_0000)?;
    lists(out, 0)
}

// With a number of axes in its first face, of places in its family, and the bits of its first request's ratio.
pub fn small(alloc: Global, axes: u8, places: u8, ratio: u32) -> Result<Vec<u8>, AllocError> {
    let mut out = Writer::new(alloc);
    small_faces(&mut out, axes)?;
    out.half(0)?;
    out.half(1)?;
    out.half(places as u16)?;
    out.numbers(places as u16, 0, 1, 3)?;
    small_requests(&mut out, ratio)?;
    Ok(out.bytes)
}

// One face, whose cmap lies a million bytes into the file; one family; one request.
pub fn long(alloc: Global) -> Result<Vec<u8>, AllocError> {
    let mut out = Writer::new(alloc);
    let font = Font {
        weight: 300,
        record: UNICODE,
        axes: 1,
        gap: 1_000_000,
    };
    out.half(1)?;
    face(&mut out, true, font)?;
    out.half(0)?;
    out.half(1)?;
    out.half(1)?;
    out.half(0)?;
    out.half(1)?;
    asked(&mut out, 1, ONE, 0, 0x442F_0000)?;
    lists(&mut out, 0)?;
    Ok(out.bytes)
}

// The large job: 256 faces, 256 overrides, 64 families of 64, 256 requests with 255 family numbers each.

fn large_faces(out: &mut Writer) -> Result<(), AllocError> {
    out.half(256)?;
    for i in 0..256u16 {
        let record = RECORDS[(i % 3) as usize];
        let font = font_of(100 + 100 * (i % 9), record, (i % 4) as u8);
        face(out, i % 5 != 0, font)?;
    }
    Ok(())
}

// All three attributes and a pair, each from the number of the override.
fn large_override(out: &mut Writer, i: u16) -> Result<(), AllocError>
    requires { i < 256 }
{
    out.half(i * 7 % 256)?;
    out.byte(7)?;
    out.word(RATIOS[(i % 3) as usize])?;
    style(out, (i / 3 % 4) as u8)?;
    out.word(WEIGHTS[(i % 9) as usize])?;
    out.byte(1)?;
    out.word(WGHT)?;
    out.word(WEIGHTS[(i % 7) as usize])
}

// The most offers, by turns.
const MOST: [u16; 4] = [0, 1, 8, 65535];

// As many families as its number says, and fallbacks to make 255. Two of 66 numbers are unknown.
fn large_request(out: &mut Writer, i: u16) -> Result<(), AllocError>
    requires { i < 256 }
{
    let ratio = RATIOS[(i / 2 % 3) as usize];
    let weight = WEIGHTS[(i % 9) as usize];
    asked(
        out,
        MOST[(i % 4) as usize],
        ratio,
        (i / 3 % 4) as u8,
        weight,
    )?;
    out.byte(i as u8)?;
    out.numbers(i, i % 66, 1, 66)?;
    out.byte((255 - i) as u8)?;
    out.numbers(255 - i, i % 66, 5, 66)
}

fn large_families(out: &mut Writer) -> Result<(), AllocError> {
    out.half(64)?;
    for i in 0..64u16 {
        out.half(64)?;
        out.numbers(64, 4 * i, 3, 256)?;
    }
    Ok(())
}

fn large_requests(out: &mut Writer) -> Result<(), AllocError> {
    out.half(256)?;
    for i in 0..256 {
        large_request(out, i)?;
    }
    Ok(())
}

pub fn large(alloc: Global) -> Result<Vec<u8>, AllocError> {
    let mut out = Writer::new(alloc);
    large_faces(&mut out)?;
    out.half(256)?;
    for i in 0..256 {
        large_override(&mut out, i)?;
    }
    large_families(&mut out)?;
    large_requests(&mut out)?;
    Ok(out.bytes)
}
