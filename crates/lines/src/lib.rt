// The lines of a sheet: what a line says.
#![tactic(auto)]

pub mod line;
