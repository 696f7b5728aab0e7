// The layout: its sections, its rules and the access table.
#![tactic(auto)]

pub mod access;
pub mod laws;
pub mod rules;
pub mod sections;
