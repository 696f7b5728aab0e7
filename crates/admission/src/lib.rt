// Whether a call is taken: the frame, and the refusals in their order.
#![tactic(auto)]

pub mod frame;
pub mod verdict;
