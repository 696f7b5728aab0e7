// What every layer shares: 16-bit words, the limits and the numbered refusals.
#![tactic(auto)]

pub mod laws;
pub mod limits;
pub mod place;
pub mod refusal;
pub mod word;
