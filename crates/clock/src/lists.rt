// The lists of requests that stay fixed in a run.
use crate::trace::Trace;

// The lists of a run: the stamps of the timetable, and the trace. Any lists may stand here; what is promised of tested ones has `Tested` as its premise.
#[derive(Clone, Copy)]
pub struct RequestLists<'a> {
    pub stamps: &'a [u64],
    pub trace: Trace<'a>,
}
