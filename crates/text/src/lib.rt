// Parts of a lent text, and the numbers that a field of it holds.
#![tactic(auto)]

pub mod number;
pub mod text;
