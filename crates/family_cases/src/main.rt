// Runs built-in families and faces through the calls on a family or face by value, and prints a line for each case.
//
// The file `stdout` of this crate is what `python3 tools/family_cases.py` prints: a model of the refusals 19, 24 and 26 of
// these calls, and of 25, and of sections 4 and 5 as far as the cases go, run on the same cases, which bear the same names
// there. A line is
//
//     match NAME: CHOICE; LIST; DEFAULT
//     fetch NAME: AXES
//     synthesis NAME: EMBOLDEN COUNT TAG TAG TAG
//     slant NAME, reading N: SKEW TAG=VALUE
//
// with `refused N` in the place of each answer that is a refusal. CHOICE is a place or `-`, LIST how many places the equal
// list has and, where it has one, the first of them. AXES says how many axes the fetched face has. A synthesis is made
// under reading 0. A slant is one under each reading and under two numbers that are none, with each value by its bits.
#![tactic(auto)]

use font::attributes::Attributes;
use font::font::FontInfo;
use matching::face;
use matching::family::FamilyInfo;
use matching::matching::{match_font, match_fonts};
use matching::stages::Places;
use matching::synthesis::Synthesis;
use output::faces::{Choice, Outcome};
use output::made::{SLNT, WDTH, WGHT, axis, degrees, styled, upright};
use output::{made, words};
use std::{fmt, io};

// How many places a list has and, where it has one, the first of them.
#[derive(Clone, Copy)]
struct Listed(Places);

impl fmt::Display for Listed {
    fn fmt<W: fmt::Write>(&self, f: &mut fmt::Formatter<W>) -> fmt::Result {
        let Places { places, count } = self.0;
        if count == 0 {
            return write!(f, "0");
        }
        write!(f, "{count} {}", places[0])
    }
}

// Emboldening, and the count and the tags of the settings.
#[derive(Clone, Copy)]
struct Set(Synthesis);

impl fmt::Display for Set {
    fn fmt<W: fmt::Write>(&self, f: &mut fmt::Formatter<W>) -> fmt::Result {
        let Synthesis {
            settings,
            len,
            embolden,
            ..
        } = self.0;
        let on = if embolden { 'b' } else { '-' };
        write!(f, "{on} {len}")?;
        for setting in settings {
            write!(f, " {:08x}", setting.tag)?;
        }
        Ok(())
    }
}

// Making values.

// A face whose array of axes begins with wght, slnt, and wdth with the default given.
fn varied(attributes: Attributes, third: f32, axis_count: usize) -> FontInfo {
    let axes = [
        axis(WGHT, 100.0, 400.0, 900.0),
        axis(SLNT, -15.0, 0.0, 15.0),
        axis(WDTH, 50.0, third, 200.0),
    ];
    made::face(attributes, &axes, axis_count)
}

// The default attributes but for the angle.
fn oblique(angle: f32) -> Attributes {
    styled(degrees(angle))
}

// A face without axes.
fn plain(attributes: Attributes) -> FontInfo {
    varied(attributes, 100.0, 0)
}

fn weighing(weight: f32) -> FontInfo {
    plain(upright(1.0, weight))
}

// A face of the default attributes with a number of axes.
fn with_axes(axis_count: usize) -> FontInfo {
    varied(Attributes::DEFAULT, 100.0, axis_count)
}

// The array of a family. All but three of its faces have the default attributes and no axes.
fn faces(first: FontInfo, second: FontInfo, last: FontInfo) -> [FontInfo; 64] {
    let mut fonts = [FontInfo::EMPTY; 64];
    fonts[0] = first;
    fonts[1] = second;
    fonts[63] = last;
    fonts
}

// One face that counts, beside two of other weights.
fn beside(face: FontInfo) -> [FontInfo; 64] {
    faces(weighing(300.0), face, weighing(700.0))
}

// The kinds of cases.

// The choice with synthesis on, the equal list, and the default of the same faces.
fn choose(
    rt: &impl Print,
    name: &str,
    fonts: [FontInfo; 64],
    count: usize,
    request: Attributes,
) -> io::Result<()> {
    let Attributes {
        width,
        style,
        weight,
    } = request;
    let chosen = match_font(fonts, count, width, style, weight, true).map(Choice);
    let listed = match_fonts(fonts, count, width, style, weight, true).map(Listed);
    let default = FamilyInfo::new(fonts, count).map(|family| family.default_font);
    println!(rt;
        "match {name}: {}; {}; {}",
        Outcome(chosen),
        Outcome(listed),
        Outcome(default)
    )
}

// The default attributes requested of an array.
fn given_all(rt: &impl Print, name: &str, fonts: [FontInfo; 64], count: usize) -> io::Result<()> {
    choose(rt, name, fonts, count, Attributes::DEFAULT)
}

// The same with one face of the array given.
fn given(rt: &impl Print, name: &str, face: FontInfo, count: usize) -> io::Result<()> {
    given_all(rt, name, beside(face), count)
}

// Two plain faces, and a request.
fn asked(rt: &impl Print, name: &str, count: usize, request: Attributes) -> io::Result<()> {
    choose(rt, name, beside(weighing(500.0)), count, request)
}

fn fetch(
    rt: &impl Print,
    name: &str,
    fonts: [FontInfo; 64],
    count: usize,
    place: usize,
) -> io::Result<()> {
    let family = FamilyInfo {
        fonts,
        count,
        default_font: 0,
    };
    let axes = family.match_font(place).map(|font| font.axis_count);
    println!(rt; "fetch {name}: {}", Outcome(axes))
}

// Of faces with 3, 5 and 7 axes.
fn fetch_three(rt: &impl Print, name: &str, count: usize, place: usize) -> io::Result<()> {
    fetch(
        rt,
        name,
        faces(with_axes(3), with_axes(5), with_axes(7)),
        count,
        place,
    )
}

fn fetch_beside(
    rt: &impl Print,
    name: &str,
    face: FontInfo,
    count: usize,
    place: usize,
) -> io::Result<()> {
    fetch(rt, name, beside(face), count, place)
}

fn synthesize(rt: &impl Print, name: &str, font: FontInfo, request: Attributes) -> io::Result<()> {
    let Attributes {
        width,
        style,
        weight,
    } = request;
    let synthesis = face::synthesis(font, 0, width, style, weight);
    println!(rt; "synthesis {name}: {}", Outcome(synthesis.map(Set)))
}

// The synthesis of a face for a style under a reading.
fn slant_under(
    rt: &impl Print,
    name: &str,
    font: FontInfo,
    reading: u32,
    request: Attributes,
) -> io::Result<()> {
    let Attributes {
        width,
        style,
        weight,
    } = request;
    print!(rt; "slant {name}, reading {reading}:")?;
    match face::synthesis(font, reading, width, style, weight) {
        Ok(synthesis) => {
            words::print_skew(rt, synthesis.skew)?;
            words::print_settings(rt, synthesis)?;
        }
        Err(refusal) => print!(rt; " refused {refusal}")?,
    }
    rt.write_all(b"\n")
}

// Under each reading, and under two numbers that are none.
fn slant(rt: &impl Print, name: &str, font: FontInfo, request: Attributes) -> io::Result<()> {
    for reading in [0, 1, 2, 0xFFFF_FFFF] {
        slant_under(rt, name, font, reading, request)?;
    }
    Ok(())
}

// The cases, in the order of the script.

fn match_few(rt: &impl Print) -> io::Result<()> {
    let fonts = beside(with_axes(2));
    asked(rt, "no face", 0, Attributes::DEFAULT)?;
    choose(rt, "no face, oblique", fonts, 0, oblique(14.0))?;
    asked(rt, "one face", 1, upright(1.0, 900.0))?;
    choose(
        rt,
        "one face, slant",
        faces(with_axes(2), with_axes(2), with_axes(2)),
        1,
        oblique(14.0),
    )?;
    choose(rt, "two faces, slant", fonts, 2, oblique(14.0))?;
    asked(rt, "two faces, no slant", 2, oblique(14.0))
}

fn match_counts(rt: &impl Print) -> io::Result<()> {
    asked(rt, "63 faces", 63, Attributes::DEFAULT)?;
    asked(rt, "64 faces", 64, upright(1.0, 700.0))?;
    asked(rt, "65 faces", 65, Attributes::DEFAULT)?;
    asked(rt, "most faces", usize::MAX, Attributes::DEFAULT)?;
    given(rt, "16 axes", with_axes(16), 2)?;
    given(rt, "17 axes", with_axes(17), 2)?;
    given(rt, "most axes", with_axes(usize::MAX), 2)?;
    given(rt, "17 axes past the count", with_axes(17), 1)
}

fn match_numbers(rt: &impl Print) -> io::Result<()> {
    given(rt, "weight infinite", weighing(f32::INFINITY), 2)?;
    given(rt, "weight NaN", weighing(f32::NAN), 2)?;
    given(
        rt,
        "weight infinite past the count",
        weighing(f32::INFINITY),
        1,
    )?;
    given(rt, "angle infinite", plain(oblique(f32::NEG_INFINITY)), 2)?;
    given(rt, "ratio 16", plain(upright(16.0, 400.0)), 2)?;
    given(rt, "ratio over 16", plain(upright(16.000002, 400.0)), 2)?;
    given(rt, "axis NaN", varied(Attributes::DEFAULT, f32::NAN, 3), 2)?;
    given(
        rt,
        "axis NaN past the axes",
        varied(Attributes::DEFAULT, f32::NAN, 2),
        2,
    )
}

// At the first place and at the last of 64.
fn match_places(rt: &impl Print) -> io::Result<()> {
    let many = with_axes(17);
    let endless = weighing(f32::INFINITY);
    let empty = FontInfo::EMPTY;
    given_all(
        rt,
        "weight infinite, no face",
        faces(endless, empty, empty),
        0,
    )?;
    given_all(
        rt,
        "weight infinite, one face",
        faces(endless, empty, empty),
        1,
    )?;
    given_all(
        rt,
        "weight infinite at the last of 64",
        faces(empty, empty, endless),
        64,
    )?;
    given_all(
        rt,
        "17 axes at the last of 64",
        faces(empty, empty, many),
        64,
    )
}

fn match_in_order(rt: &impl Print) -> io::Result<()> {
    let many = with_axes(17);
    let endless = weighing(f32::INFINITY);
    given(
        rt,
        "both in one face",
        varied(upright(1.0, f32::INFINITY), 100.0, 17),
        2,
    )?;
    given(rt, "65 faces, weight infinite", endless, 65)?;
    given_all(
        rt,
        "weight infinite, then 17 axes",
        faces(endless, many, endless),
        2,
    )?;
    given_all(
        rt,
        "17 axes, then weight infinite",
        faces(many, endless, endless),
        2,
    )?;
    given_all(
        rt,
        "weight infinite, 17 axes at the last of 64",
        faces(endless, endless, many),
        64,
    )
}

fn match_requests(rt: &impl Print) -> io::Result<()> {
    asked(rt, "request ratio 16", 2, upright(16.0, 400.0))?;
    asked(rt, "request ratio over 16", 2, upright(16.000002, 400.0))?;
    asked(rt, "request angle infinite", 2, oblique(f32::INFINITY))?;
    asked(rt, "request weight NaN", 2, upright(1.0, f32::NAN))
}

fn match_infinite_request(rt: &impl Print) -> io::Result<()> {
    let endless = upright(1.0, f32::INFINITY);
    asked(rt, "no face, request infinite", 0, endless)?;
    asked(rt, "one face, request infinite", 1, endless)?;
    asked(rt, "two faces, request infinite", 2, endless)?;
    asked(rt, "65 faces, request infinite", 65, endless)?;
    choose(
        rt,
        "17 axes, request infinite",
        beside(with_axes(17)),
        2,
        endless,
    )?;
    choose(
        rt,
        "weight and request infinite",
        beside(plain(endless)),
        2,
        endless,
    )
}

fn fetch_places(rt: &impl Print) -> io::Result<()> {
    fetch_three(rt, "first of two", 2, 0)?;
    fetch_three(rt, "last of two", 2, 1)?;
    fetch_three(rt, "last of 64", 64, 63)?;
    fetch_three(rt, "the count, of two", 2, 2)?;
    fetch_three(rt, "the count, of 64", 64, 64)?;
    fetch_three(rt, "most, of 64", 64, usize::MAX)?;
    fetch_three(rt, "of no face", 0, 0)?;
    fetch_three(rt, "first of 65", 65, 0)?;
    fetch_three(rt, "the count, of 65", 65, 65)
}

fn fetch_axes(rt: &impl Print) -> io::Result<()> {
    let many = with_axes(17);
    fetch_beside(rt, "16 axes", with_axes(16), 2, 1)?;
    fetch_beside(rt, "17 axes", many, 2, 1)?;
    fetch_beside(rt, "17 axes at another place", many, 2, 0)?;
    fetch_beside(rt, "17 axes, the count", many, 2, 2)?;
    fetch_beside(rt, "17 axes past the count", many, 1, 0)
}

fn fetch_numbers(rt: &impl Print) -> io::Result<()> {
    let endless = varied(upright(1.0, f32::INFINITY), f32::NAN, 4);
    fetch_beside(rt, "weight infinite", endless, 2, 1)?;
    fetch_beside(rt, "weight infinite at another place", endless, 2, 0)?;
    fetch_beside(rt, "weight infinite, the count", endless, 2, 2)?;
    fetch(
        rt,
        "weight infinite, then 17 axes",
        faces(endless, with_axes(17), endless),
        2,
        0,
    )
}

fn synthesis_made(rt: &impl Print) -> io::Result<()> {
    let wanted = upright(0.75, 900.0);
    synthesize(rt, "nothing", weighing(300.0), upright(1.0, 300.0))?;
    synthesize(rt, "embolden", weighing(300.0), wanted)?;
    synthesize(rt, "wght alone", with_axes(1), wanted)?;
    synthesize(rt, "slnt", with_axes(2), oblique(14.0))?;
    synthesize(rt, "wdth and wght", with_axes(16), wanted)?;
    synthesize(
        rt,
        "NaN past the axes",
        varied(Attributes::DEFAULT, f32::NAN, 2),
        wanted,
    )
}

fn synthesis_refused(rt: &impl Print) -> io::Result<()> {
    let wanted = upright(0.75, 900.0);
    let endless = upright(1.0, f32::INFINITY);
    synthesize(rt, "17 axes", with_axes(17), wanted)?;
    synthesize(rt, "17 axes, request infinite", with_axes(17), endless)?;
    synthesize(
        rt,
        "17 axes, weight infinite",
        varied(endless, 100.0, 17),
        wanted,
    )?;
    synthesize(rt, "weight infinite", plain(endless), wanted)?;
    synthesize(
        rt,
        "axis NaN",
        varied(Attributes::DEFAULT, f32::NAN, 3),
        wanted,
    )?;
    synthesize(rt, "request infinite", weighing(300.0), endless)?;
    synthesize(rt, "request NaN", weighing(300.0), oblique(f32::NAN))?;
    synthesize(
        rt,
        "request ratio over 16",
        weighing(300.0),
        upright(16.000002, 300.0),
    )
}

fn slants(rt: &impl Print) -> io::Result<()> {
    slant(rt, "oblique 12", with_axes(2), oblique(12.0))?;
    slant(rt, "oblique -12", with_axes(2), oblique(-12.0))?;
    slant(rt, "oblique 0", with_axes(2), oblique(0.0))?;
    slant(rt, "oblique -0", with_axes(2), oblique(-0.0))?;
    slant(rt, "oblique 1e-45", with_axes(2), oblique(1e-45))?;
    slant(rt, "normal", with_axes(2), Attributes::DEFAULT)?;
    slant(rt, "no axis", with_axes(0), oblique(12.0))?;
    slant(rt, "17 axes", with_axes(17), oblique(12.0))?;
    slant(rt, "request infinite", with_axes(2), oblique(f32::INFINITY))?;
    slant(rt, "an oblique face", plain(oblique(-12.0)), oblique(12.0))
}

fn main(rt: HostRuntime) -> io::Result<()> {
    match_few(&rt)?;
    match_counts(&rt)?;
    match_numbers(&rt)?;
    match_places(&rt)?;
    match_in_order(&rt)?;
    match_requests(&rt)?;
    match_infinite_request(&rt)?;
    fetch_places(&rt)?;
    fetch_axes(&rt)?;
    fetch_numbers(&rt)?;
    synthesis_made(&rt)?;
    synthesis_refused(&rt)?;
    slants(&rt)
}
