// The script of the worked cases: what a line says, which command that is, and the world that the commands make for a call.
#![tactic(auto)]

pub mod command;
pub mod line;
pub mod list;
pub mod memory;
pub mod words;
pub mod world;
