// The words of a face and of an answer, each a type that prints what it holds.
ghost use Rattle.std.specs.Prelude.{Some};
ghost use Rattle.output.specs.Faces.{bits_words, style_words, attributes_words, axis_words, axes_words, index_words, choice_words};

use font::attributes::{Angle, Attributes, FontStyle};
use font::charmap::CharmapIndex;
use font::font::{AxisInfo, FontInfo};
use font::refusal::Refusal;
use std::fmt;

// A number by its bits, in 8 hexadecimal digits. A NaN, whose bits nothing tells, is printed as 0.
#[derive(Clone, Copy)]
pub struct Bits(pub f32);

impl fmt::Display for Bits {
    ghost output = { λ x. Some (bits_words x.0) };

    fn fmt<W: fmt::Write>(&self, f: &mut fmt::Formatter<W>) -> fmt::Result {
        let Bits(x) = *self;
        let bits = if x.is_nan() { 0 } else { f32::to_bits(x) };
        write!(f, "{bits:08x}")
    }
}

// A style: its kind, and its angle, which is 0 where none is stated.
#[derive(Clone, Copy)]
pub struct Style(pub FontStyle);

impl fmt::Display for Style {
    ghost output = { λ x. Some (style_words x.0) };

    fn fmt<W: fmt::Write>(&self, f: &mut fmt::Formatter<W>) -> fmt::Result {
        match self.0 {
            FontStyle::Normal => write!(f, "0 00000000"),
            FontStyle::Italic => write!(f, "1 00000000"),
            FontStyle::Oblique(Angle::Unstated) => write!(f, "2 00000000"),
            FontStyle::Oblique(Angle::Degrees(angle)) => write!(f, "3 {}", Bits(angle)),
        }
    }
}

// Attributes: ratio, style and weight.
#[derive(Clone, Copy)]
pub struct Stated(pub Attributes);

impl fmt::Display for Stated {
    ghost output = { λ x. Some (attributes_words x.0) };

    fn fmt<W: fmt::Write>(&self, f: &mut fmt::Formatter<W>) -> fmt::Result {
        let Attributes {
            width,
            style,
            weight,
        } = self.0;
        write!(
            f,
            "{} {} {}",
            Bits(width.ratio),
            Style(style),
            Bits(weight.value)
        )
    }
}

// A charmap index: the offset, and whether it is a symbol or a Mac Roman record.
#[derive(Clone, Copy)]
pub struct Index(pub CharmapIndex);

impl fmt::Display for Index {
    ghost output = { λ x. Some (index_words x.0) };

    fn fmt<W: fmt::Write>(&self, f: &mut fmt::Formatter<W>) -> fmt::Result {
        let CharmapIndex {
            subtable_offset,
            is_symbol,
            is_mac_roman,
        } = self.0;
        write!(
            f,
            "{subtable_offset} {} {}",
            is_symbol as u8, is_mac_roman as u8
        )
    }
}

// An axis: tag, minimum, default and maximum.
#[derive(Clone, Copy)]
pub struct Axis(pub AxisInfo);

impl fmt::Display for Axis {
    ghost output = { λ x. Some (axis_words x.0) };

    fn fmt<W: fmt::Write>(&self, f: &mut fmt::Formatter<W>) -> fmt::Result {
        let AxisInfo {
            tag,
            min,
            default,
            max,
        } = self.0;
        write!(f, "{tag:08x}={},{},{}", Bits(min), Bits(default), Bits(max))
    }
}

// The axes of a face, each after a blank.
#[derive(Clone, Copy)]
pub struct Axes(pub FontInfo);

impl fmt::Display for Axes {
    ghost output = { λ x. Some (axes_words x.0) };

    fn fmt<W: fmt::Write>(&self, f: &mut fmt::Formatter<W>) -> fmt::Result {
        for axis in &self.0.axes[..self.0.axis_count.min(16)] {
            write!(f, " {}", Axis(*axis))?;
        }
        Ok(())
    }
}

// A place, if there is one.
#[derive(Clone, Copy)]
pub struct Choice(pub Option<usize>);

impl fmt::Display for Choice {
    ghost output = { λ x. Some (choice_words x.0) };

    fn fmt<W: fmt::Write>(&self, f: &mut fmt::Formatter<W>) -> fmt::Result {
        match self.0 {
            Some(place) => write!(f, "{place}"),
            None => write!(f, "-"),
        }
    }
}

// What is answered, or `refused` and the refusal's number.
#[derive(Clone, Copy)]
pub struct Outcome<T>(pub Result<T, Refusal>);

impl<T: fmt::Display> fmt::Display for Outcome<T> {
    fn fmt<W: fmt::Write>(&self, f: &mut fmt::Formatter<W>) -> fmt::Result {
        match &self.0 {
            Ok(answer) => write!(f, "{answer}"),
            Err(refusal) => write!(f, "refused {refusal}"),
        }
    }
}
