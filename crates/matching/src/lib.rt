// Matching: the order of faces, the choice, the equal list, the default, and synthesis.
#![tactic(auto)]

pub mod axes;
pub mod face;
pub mod family;
pub mod matching;
pub mod order;
mod rank;
pub mod rows;
pub mod stages;
pub mod synthesis;
