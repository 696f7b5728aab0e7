// The table of instruction words, by row: the row that a first word begins, and the words of a row.
#![tactic(auto)]

pub mod laws;
pub mod read;
pub mod row;
pub mod write;
