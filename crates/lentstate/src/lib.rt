// A machine in the numbers that a caller lends.
#![tactic(auto)]

pub mod laws;
pub mod state;
