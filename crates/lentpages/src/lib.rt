// Sheets and transcripts on a machine as lent numbers.
#![tactic(auto)]

pub mod page;
pub mod setup;
