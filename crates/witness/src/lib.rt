// Witnesses: what is claimed of machines with a whole memory, computed. A crate of its own, with no edits, since they take time.
#![tactic(auto)]

pub mod laws;
