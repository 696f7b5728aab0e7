// All that a sheet leads to, byte by byte: opened here, and written page by page.
#![tactic(auto)]

pub mod laws;
pub mod open;
