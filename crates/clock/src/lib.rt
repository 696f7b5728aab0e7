// The clock, the requests, the timetable and the trace.
#![tactic(auto)]

pub mod lists;
pub mod time;
pub mod timetable;
pub mod trace;
