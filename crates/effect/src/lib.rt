// What a common instruction does of which no interrupt can come, by the row of its first word.
#![tactic(auto)]

pub mod effect;
pub mod laws;
