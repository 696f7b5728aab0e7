// What is claimed of the machine. The statements stand in `definition`, and so do the laws that prove them.
#![tactic(auto)]

pub mod laws;
