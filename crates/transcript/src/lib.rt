// The lines of a run's transcript.
#![tactic(auto)]

pub mod line;
