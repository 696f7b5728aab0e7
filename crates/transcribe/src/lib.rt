// A run's transcript, written part by part into a lent buffer.
#![tactic(auto)]

mod page;
pub mod progress;
