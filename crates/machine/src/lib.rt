// What callers reach: start, step and run.
#![tactic(auto)]

pub mod calls;
