// What is printed for a job: `requests N` and a line for each offer, or `refused`, number and position; the words of such lines; and
// what the test programs share, the words of a face and the faces that they make.
#![tactic(auto)]

pub mod faces;
pub mod lines;
pub mod made;
pub mod words;
