// The machine as document 01 defines it: the state, one step, many steps, what callers get; the laws on them.
#![tactic(auto)]

pub mod state;
pub mod stop_address;
