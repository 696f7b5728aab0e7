// Many steps of a machine whose registers are lent.
#![tactic(auto)]

pub mod run;
