// The sizes of a job's entries and of the output in bytes, and the limits of its counts.

// The most bytes that a job has.
pub(crate) const MOST_BYTES: usize = 16_777_216;

// The limits of a job's counts.
pub(crate) const MOST_FACES: u16 = 256;

// A job of so many faces at most is answered with the smaller table of rows.
pub(crate) const FEW_FACES: u16 = 64;

pub(crate) const MOST_OVERRIDES: u16 = 256;

pub(crate) const MOST_FAMILIES: u16 = 64;

pub(crate) const MOST_PLACES: u16 = 64;

pub(crate) const MOST_REQUESTS: u16 = 256;

// A face before its font file: held byte and length.
pub(crate) const FACE_HEAD: usize = 5;

// The font number behind a collection's file.
pub(crate) const FONT_NUMBER: usize = 2;

// Where an override has its mask, ratio, style, weight and pair count, after its face; and its size before its pairs.
pub(crate) const OVERRIDE_MASK: usize = 2;

pub(crate) const OVERRIDE_RATIO: usize = 3;

pub(crate) const OVERRIDE_STYLE: usize = 7;

pub(crate) const OVERRIDE_WEIGHT: usize = 12;

pub(crate) const OVERRIDE_COUNT: usize = 16;

pub(crate) const OVERRIDE_HEAD: usize = 17;

// A tag and a value.
pub(crate) const PAIR: usize = 8;

// Where a request has its attributes, after the most offers; where these have style and weight, after the ratio; and a
// request's size before its two lists.
pub(crate) const REQUEST_ATTRIBUTES: usize = 2;

pub(crate) const ATTRIBUTES_STYLE: usize = 4;

pub(crate) const ATTRIBUTES_WEIGHT: usize = 9;

pub(crate) const REQUEST_HEAD: usize = 15;

// The bytes of an offer.
pub(crate) const RECORD: usize = 40;
