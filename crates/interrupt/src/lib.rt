// Reset, the three ways that a service starts, and the return from a held visit.
#![tactic(auto)]

pub mod service;
