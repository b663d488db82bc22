// Jobs and offers: the job's layout and refusals, the check call, the offers of a request, and the cursor.
#![tactic(auto)]

pub mod answer;
pub mod call;
pub mod cursor;
mod entries;
mod faces;
mod families;
mod fields;
pub mod job;
mod loading;
mod offers;
mod record;
mod sections;
mod sizes;
mod values;
