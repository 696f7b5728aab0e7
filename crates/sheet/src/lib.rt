// The bench sheet: the reader of its lines, and the setup that they tell.
#![tactic(auto)]

pub mod laws;
pub mod reader;
pub mod trace;
