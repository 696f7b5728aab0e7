// The lines of a run's steps and of its end, written into a lent buffer as long as there is room for one.
#![tactic(auto)]

pub mod remaining;
pub mod steps;
