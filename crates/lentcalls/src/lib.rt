// Start, step and run on a machine as lent numbers.
#![tactic(auto)]

pub mod calls;
pub mod laws;
