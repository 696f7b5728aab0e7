// Fast steps: common instructions of which no interrupt can come, in a row, on registers that are changed where they lie.
#![tactic(auto)]

pub mod laws;
pub mod steps;
