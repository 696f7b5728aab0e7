// The eight causes of a reset.
#![tactic(auto)]

pub mod causes;
