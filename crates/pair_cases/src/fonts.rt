// Small font files: OS/2, cmap with one record, fvar. Bytes that are no field hold filler.
ghost use Rattle.std.specs.Prelude.{◌<◌};

use crate::put::Writer;
use std::alloc::AllocError;

// The platform and the encoding of a cmap record.
#[derive(Clone, Copy)]
pub struct Record {
    platform: u16,
    encoding: u16,
}

pub const UNICODE: Record = Record {
    platform: 3,
    encoding: 1,
};

pub const SYMBOL: Record = Record {
    platform: 3,
    encoding: 0,
};

pub const MAC_ROMAN: Record = Record {
    platform: 1,
    encoding: 0,
};

#[derive(Clone, Copy)]
pub struct Font {
    pub weight: u16,
    pub record: Record,
    pub axes: u8,
    // Bytes between OS/2 and cmap.
    pub gap: u32,
    ghost gap_bound: { gap < 16777216 },
}

const OS2: u32 = 0x4F53_2F32;

const CMAP: u32 = 0x636D_6170;

const FVAR: u32 = 0x6676_6172;

pub const WGHT: u32 = 0x7767_6874;

// The tag of an axis: wght, wdth, slnt, and others.
fn tag(number: u8) -> u32 {
    match number {
        0 => WGHT,
        1 => 0x7764_7468,
        2 => 0x736C_6E74,
        _ => 0x4158_0000 + number as u32,
    }
}

fn axis(out: &mut Writer, number: u8) -> Result<(), AllocError> {
    out.word(tag(number))?;
    out.word(0)?;
    out.word(400 * 65536)?;
    out.word(900 * 65536)?;
    out.filler(16, 20, 5)
}

// Width class 5 and no bit of fsSelection.
fn os2(out: &mut Writer, weight: u16) -> Result<(), AllocError> {
    out.filler(0, 4, 1)?;
    out.half(weight)?;
    out.half(5)?;
    out.filler(8, 62, 1)?;
    out.half(0)?;
    out.filler(64, 78, 1)
}

fn cmap(out: &mut Writer, record: Record) -> Result<(), AllocError> {
    out.word(1)?;
    out.half(record.platform)?;
    out.half(record.encoding)?;
    out.word(12)?;
    out.filler(0, 2, 6)
}

fn fvar(out: &mut Writer, count: u8) -> Result<(), AllocError> {
    out.filler(0, 4, 4)?;
    out.half(16)?;
    out.filler(6, 8, 4)?;
    out.half(count as u16)?;
    out.half(20)?;
    out.filler(12, 16, 4)?;
    for number in 0..count {
        axis(out, number)?;
    }
    Ok(())
}

// A record of the directory.
fn entry(
    out: &mut Writer,
    tag: u32,
    number: u8,
    offset: u32,
    length: u32,
) -> Result<(), AllocError> {
    out.word(tag)?;
    out.word(0x5EED_0000 + number as u32)?;
    out.word(offset)?;
    out.word(length)
}

fn directory(out: &mut Writer, font: Font) -> Result<(), AllocError> {
    out.word(0x0001_0000)?;
    out.half(3)?;
    out.filler(0, 6, 7)?;
    entry(out, OS2, 0, 60, 78)?;
    entry(out, CMAP, 1, 138 + font.gap, 14)?;
    entry(out, FVAR, 2, 152 + font.gap, 16 + 20 * font.axes as u32)
}

// The length of the file, and the file.
pub fn file(out: &mut Writer, font: Font) -> Result<(), AllocError> {
    out.word(168 + font.gap + 20 * font.axes as u32)?;
    directory(out, font)?;
    os2(out, font.weight)?;
    out.filler(0, font.gap, 8)?;
    cmap(out, font.record)?;
    fvar(out, font.axes)
}
