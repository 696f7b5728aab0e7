// One whole step of the machine.
#![tactic(auto)]

pub mod step;
