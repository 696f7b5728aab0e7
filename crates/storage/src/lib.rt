// Registers and memory, and a state whose registers are lent.
#![tactic(auto)]

pub mod answered;
pub mod control;
pub mod memory;
pub mod registers;
