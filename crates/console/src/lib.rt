// The console of the programs that print lines of fields: what their output is put on, and standard input.
#![tactic(auto)]

pub mod input;
pub mod print;
