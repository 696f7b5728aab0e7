// One instruction as four lent numbers: reading and writing it.
#![tactic(auto)]

mod fields;
pub mod instruction;
pub mod laws;
