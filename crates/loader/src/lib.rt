// What a sheet sets up: its memory, its timetable and its trace, loaded into what is lent.
#![tactic(auto)]

pub mod load;
