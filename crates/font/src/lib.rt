// Font reading: single-precision numbers, OpenType tables, attributes, axes, the charmap index, and overrides.
#![tactic(auto)]

pub mod attributes;
pub mod charmap;
pub mod collection;
pub mod font;
pub mod overrides;
pub mod refusal;
pub mod single;
pub mod slant;
pub mod tables;
