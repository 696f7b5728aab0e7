// One step of a machine whose registers are lent: fast where it can be.
#![tactic(auto)]

pub mod in_place;
