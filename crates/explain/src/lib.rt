// The sentence that says why a sheet is refused, for the person who wrote it.
#![tactic(auto)]

mod put;
mod reason;
pub mod sentence;
