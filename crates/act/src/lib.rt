// What an instruction does to registers and memory.
#![tactic(auto)]

pub mod instruction;
