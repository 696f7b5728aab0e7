// A layout as five lent numbers: what it allows, and the first rule that it breaks.
#![tactic(auto)]

pub mod access;
pub mod fault;
pub mod laws;
