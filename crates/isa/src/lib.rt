// Instructions: what they are, the words that stand for them, their cycles and lengths.
#![tactic(auto)]

pub mod encoding;
pub mod instruction;
pub mod laws;
pub mod read;
pub mod table;
pub mod write;
