// Runs built-in faces through `apply_override` and `maybe_override_attributes`, and prints a line for each case.
//
// The file `stdout` of this crate is what `python3 tools/override_cases.py` prints: a model of docs/GUIDE.md, section 3, and of
// the refusals 19 and 26, run on the same cases, which bear the same names there. A line is
//
//     NAME: refused N
//     NAME: RATIO KIND ANGLE WEIGHT TAG=MIN,DEFAULT,MAX ..
//
// with the fields of the list of fonts (`rust/README.md`), and an axis only where the face has it.
#![tactic(auto)]

use font::attributes::{Angle, Attributes, FontStyle, FontWeight, FontWidth};
use font::font::{AxisInfo, FontInfo};
use font::overrides::FontInfoOverride;
use font::refusal::Refusal;
use output::faces::{Axes, Outcome, Stated};
use output::made;
use output::made::{SLNT, WDTH, WGHT, degrees, styled, upright};
use std::{fmt, io};

const OPSZ: u32 = 0x6F70_737A;

// The slant axis of most faces.
const SLANT: AxisInfo = AxisInfo {
    tag: SLNT,
    min: -15.0,
    default: 0.0,
    max: 15.0,
};

// The attributes of most faces: each differs from its default.
const OWN: Attributes = Attributes {
    width: FontWidth { ratio: 0.75 },
    style: FontStyle::Italic,
    weight: FontWeight { value: 300.0 },
};

const MINUS_ZEROS: Attributes = Attributes {
    width: FontWidth { ratio: -0.0 },
    style: FontStyle::Oblique(Angle::Degrees(-0.0)),
    weight: FontWeight { value: -0.0 },
};

// What most cases of `maybe_override_attributes` give.
const GIVEN: Attributes = Attributes {
    width: FontWidth { ratio: 0.5 },
    style: FontStyle::Oblique(Angle::Degrees(10.0)),
    weight: FontWeight { value: 700.0 },
};

const KEEP: FontInfoOverride = FontInfoOverride {
    width: None,
    style: None,
    weight: None,
};

// Making values.

fn slant(min: f32, default: f32, max: f32) -> AxisInfo {
    made::axis(SLNT, min, default, max)
}

// A face whose array of axes begins with wght, wdth, wght and the one given.
fn face(attributes: Attributes, fourth: AxisInfo, axis_count: usize) -> FontInfo {
    let axes = [
        made::axis(WGHT, 100.0, 400.0, 900.0),
        made::axis(WDTH, 50.0, 100.0, 200.0),
        made::axis(WGHT, 1.0, 2.0, 3.0),
        fourth,
    ];
    made::face(attributes, &axes, axis_count)
}

fn unstated() -> FontStyle {
    FontStyle::Oblique(Angle::Unstated)
}

// Overrides of one attribute: each sets a field of its own.

fn width(ratio: f32) -> FontInfoOverride {
    FontInfoOverride {
        width: Some(FontWidth::new(ratio)),
        ..KEEP
    }
}

fn style(style: FontStyle) -> FontInfoOverride {
    FontInfoOverride {
        style: Some(style),
        ..KEEP
    }
}

fn weight(value: f32) -> FontInfoOverride {
    FontInfoOverride {
        weight: Some(FontWeight::new(value)),
        ..KEEP
    }
}

fn all(ratio: f32, style: FontStyle, value: f32) -> FontInfoOverride {
    FontInfoOverride {
        width: Some(FontWidth::new(ratio)),
        style: Some(style),
        weight: Some(FontWeight::new(value)),
    }
}

// The kinds of cases.

// A face as it is printed.
#[derive(Clone, Copy)]
struct Shown(FontInfo);

impl fmt::Display for Shown {
    fn fmt<W: fmt::Write>(&self, f: &mut fmt::Formatter<W>) -> fmt::Result {
        write!(f, "{}{}", Stated(self.0.attributes), Axes(self.0))
    }
}

// The line of a case. `rt` and `name` go with each case, here and in the other test programs: where its line is printed, and what it
// begins with.
fn print_case(
    rt: &impl Print,
    kind: &str,
    name: &str,
    outcome: Result<FontInfo, Refusal>,
) -> io::Result<()> {
    println!(rt; "{kind} {name}: {}", Outcome(outcome.map(Shown)))
}

// An override of attributes and no axis.
fn set(rt: &impl Print, name: &str, o: FontInfoOverride) -> io::Result<()> {
    let outcome = face(OWN, SLANT, 3).apply_override(o, &[], &[]);
    print_case(rt, "set", name, outcome)
}

// An override of axes and no attribute.
fn pairs(
    rt: &impl Print,
    name: &str,
    count: usize,
    tags: &[u32],
    values: &[f32],
) -> io::Result<()> {
    let outcome = face(OWN, SLANT, count).apply_override(KEEP, tags, values);
    print_case(rt, "pairs", name, outcome)
}

// A face under an override that keeps all, and under the default attributes.
fn own(
    rt: &impl Print,
    name: &str,
    attributes: Attributes,
    fourth: AxisInfo,
    count: usize,
) -> io::Result<()> {
    let info = face(attributes, fourth, count);
    print_case(rt, "own", name, info.apply_override(KEEP, &[], &[]))?;
    let outcome = info.maybe_override_attributes(Attributes::DEFAULT);
    print_case(rt, "own, maybe", name, outcome)
}

// Attributes given to a face with no axes, for those that equal the defaults.
fn maybe(rt: &impl Print, name: &str, attributes: Attributes, given: Attributes) -> io::Result<()> {
    let outcome = face(attributes, SLANT, 0).maybe_override_attributes(given);
    print_case(rt, "maybe", name, outcome)
}

// The cases, in the order of the script.

fn set_one(rt: &impl Print) -> io::Result<()> {
    set(rt, "nothing", KEEP)?;
    set(rt, "width", width(1.25))?;
    set(rt, "style normal", style(FontStyle::Normal))?;
    set(rt, "style unstated", style(unstated()))?;
    set(rt, "style stated", style(degrees(-14.0)))?;
    set(rt, "weight", weight(650.5))
}

fn set_all(rt: &impl Print) -> io::Result<()> {
    set(rt, "all", all(2.0, degrees(20.0), 900.0))?;
    set(rt, "defaults", all(1.0, FontStyle::Normal, 400.0))?;
    set(rt, "zeros", all(0.0, degrees(0.0), 0.0))?;
    set(rt, "minus zeros", all(-0.0, degrees(-0.0), -0.0))?;
    set(rt, "below zero", all(0.5, degrees(-90.0), -1.5))
}

fn set_ratio(rt: &impl Print) -> io::Result<()> {
    set(rt, "ratio 16", width(16.0))?;
    set(rt, "ratio over 16", width(16.000002))?;
    set(rt, "ratio below 0", width(-0.001))?;
    set(rt, "ratio NaN", width(f32::NAN))?;
    set(rt, "ratio infinite", width(f32::INFINITY))
}

fn set_not_finite(rt: &impl Print) -> io::Result<()> {
    set(rt, "angle NaN", style(degrees(f32::NAN)))?;
    set(rt, "angle infinite", style(degrees(f32::NEG_INFINITY)))?;
    set(rt, "weight NaN", weight(f32::NAN))?;
    set(rt, "weight infinite", weight(f32::INFINITY))
}

fn pairs_found(rt: &impl Print) -> io::Result<()> {
    pairs(rt, "one", 3, &[WDTH], &[75.0])?;
    pairs(
        rt,
        "later wins",
        3,
        &[WDTH, WGHT, WDTH],
        &[75.0, 650.0, 125.0],
    )?;
    pairs(rt, "repeated axis", 3, &[WGHT], &[650.0])?;
    pairs(rt, "last of the count", 4, &[SLNT], &[-10.0])
}

fn pairs_not_found(rt: &impl Print) -> io::Result<()> {
    pairs(rt, "unknown tag", 3, &[OPSZ], &[12.0])?;
    pairs(rt, "tag past the count", 3, &[SLNT], &[-10.0])?;
    pairs(rt, "no axes", 0, &[WGHT], &[650.0])
}

fn pairs_not_clamped(rt: &impl Print) -> io::Result<()> {
    pairs(rt, "above the maximum", 3, &[WDTH], &[1000.0])?;
    pairs(rt, "below the minimum", 3, &[WDTH], &[-5.0])?;
    pairs(rt, "minus zero", 3, &[WDTH], &[-0.0])
}

fn pairs_uneven(rt: &impl Print) -> io::Result<()> {
    pairs(rt, "more tags", 3, &[WDTH, WGHT], &[75.0])?;
    pairs(rt, "more values", 3, &[WDTH], &[75.0, 650.0])?;
    pairs(rt, "NaN past the tags", 3, &[WDTH], &[75.0, f32::NAN])
}

fn pairs_counts(rt: &impl Print) -> io::Result<()> {
    pairs(rt, "16 axes", 16, &[0], &[7.0])?;
    pairs(rt, "17 axes", 17, &[WGHT], &[650.0])?;
    pairs(rt, "17 axes, NaN", 17, &[WGHT], &[f32::NAN])
}

fn pairs_not_finite(rt: &impl Print) -> io::Result<()> {
    pairs(rt, "NaN", 3, &[WDTH], &[f32::NAN])?;
    pairs(rt, "infinite", 3, &[WDTH], &[f32::INFINITY])?;
    pairs(
        rt,
        "NaN at an unknown tag",
        3,
        &[WDTH, OPSZ],
        &[75.0, f32::NAN],
    )
}

fn own_accepted(rt: &impl Print) -> io::Result<()> {
    own(rt, "no defaults", OWN, SLANT, 4)?;
    own(rt, "defaults", Attributes::DEFAULT, SLANT, 4)?;
    own(rt, "16 axes", OWN, SLANT, 16)?;
    own(
        rt,
        "NaN past the count",
        OWN,
        slant(f32::NAN, f32::NAN, f32::NAN),
        3,
    )
}

fn own_counts(rt: &impl Print) -> io::Result<()> {
    own(rt, "17 axes", OWN, SLANT, 17)?;
    own(
        rt,
        "17 axes, ratio NaN",
        upright(f32::NAN, 400.0),
        SLANT,
        17,
    )?;
    own(
        rt,
        "17 axes, minimum NaN",
        OWN,
        slant(f32::NAN, 0.0, 15.0),
        17,
    )
}

fn own_axes(rt: &impl Print) -> io::Result<()> {
    own(rt, "minimum NaN", OWN, slant(f32::NAN, 0.0, 15.0), 4)?;
    own(
        rt,
        "default infinite",
        OWN,
        slant(-15.0, f32::INFINITY, 15.0),
        4,
    )?;
    own(
        rt,
        "maximum infinite",
        OWN,
        slant(-15.0, 0.0, f32::NEG_INFINITY),
        4,
    )
}

fn own_ratio(rt: &impl Print) -> io::Result<()> {
    own(rt, "ratio NaN", upright(f32::NAN, 400.0), SLANT, 3)?;
    own(
        rt,
        "ratio infinite",
        upright(f32::INFINITY, 400.0),
        SLANT,
        3,
    )?;
    own(rt, "ratio over 16", upright(16.000002, 400.0), SLANT, 3)
}

fn own_not_finite(rt: &impl Print) -> io::Result<()> {
    own(rt, "angle NaN", styled(degrees(f32::NAN)), SLANT, 3)?;
    own(
        rt,
        "angle infinite",
        styled(degrees(f32::INFINITY)),
        SLANT,
        3,
    )?;
    own(rt, "weight NaN", upright(1.0, f32::NAN), SLANT, 3)?;
    own(
        rt,
        "weight infinite",
        upright(1.0, f32::NEG_INFINITY),
        SLANT,
        3,
    )
}

fn maybe_each(rt: &impl Print) -> io::Result<()> {
    maybe(rt, "all are defaults", Attributes::DEFAULT, GIVEN)?;
    maybe(rt, "none is a default", OWN, GIVEN)?;
    maybe(rt, "style alone", upright(0.75, 300.0), GIVEN)?;
    maybe(rt, "style and weight", upright(0.75, 400.0), GIVEN)?;
    maybe(rt, "width and style", upright(1.0, 300.0), GIVEN)?;
    maybe(rt, "width and weight", styled(FontStyle::Italic), GIVEN)
}

fn maybe_near(rt: &impl Print) -> io::Result<()> {
    maybe(
        rt,
        "beside the defaults",
        upright(1.0000001, 400.00003),
        GIVEN,
    )?;
    maybe(rt, "unstated", styled(unstated()), GIVEN)?;
    maybe(rt, "stated 0", styled(degrees(0.0)), GIVEN)?;
    maybe(rt, "minus zeros", MINUS_ZEROS, GIVEN)
}

fn maybe_given(rt: &impl Print) -> io::Result<()> {
    maybe(rt, "given defaults", OWN, Attributes::DEFAULT)?;
    maybe(
        rt,
        "given unstated",
        Attributes::DEFAULT,
        styled(unstated()),
    )?;
    maybe(rt, "given minus zeros", Attributes::DEFAULT, MINUS_ZEROS)?;
    maybe(
        rt,
        "given ratio 16",
        Attributes::DEFAULT,
        upright(16.0, 1.0),
    )
}

fn maybe_refused(rt: &impl Print) -> io::Result<()> {
    maybe(rt, "given ratio NaN", OWN, upright(f32::NAN, 400.0))?;
    maybe(rt, "given ratio over 16", OWN, upright(16.000002, 400.0))?;
    maybe(rt, "given angle NaN", OWN, styled(degrees(f32::NAN)))?;
    maybe(
        rt,
        "given weight infinite",
        OWN,
        upright(1.0, f32::INFINITY),
    )
}

fn main(rt: HostRuntime) -> io::Result<()> {
    set_one(&rt)?;
    set_all(&rt)?;
    set_ratio(&rt)?;
    set_not_finite(&rt)?;
    pairs_found(&rt)?;
    pairs_not_found(&rt)?;
    pairs_not_clamped(&rt)?;
    pairs_uneven(&rt)?;
    pairs_counts(&rt)?;
    pairs_not_finite(&rt)?;
    own_accepted(&rt)?;
    own_counts(&rt)?;
    own_axes(&rt)?;
    own_ratio(&rt)?;
    own_not_finite(&rt)?;
    maybe_each(&rt)?;
    maybe_near(&rt)?;
    maybe_given(&rt)?;
    maybe_refused(&rt)
}
