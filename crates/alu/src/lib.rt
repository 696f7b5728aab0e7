// What ADD, SUB, CMP, AND and NOT compute, and the status word.
#![tactic(auto)]

pub mod arithmetic;
pub mod laws;
pub mod status;
