// The machine for programs in other languages: exported functions over lent numbers and bytes. Each repeats the head of the function that it
// calls: an archive has the exports of its own crate alone, and C lends numbers and bytes apart.
#![tactic(auto)]

pub mod access;
pub mod calls;
pub mod fault;
pub mod instruction;
pub mod page;
pub mod setup;
