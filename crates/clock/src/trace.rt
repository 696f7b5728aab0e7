// The ride trace that a caller hands in.
ghost use Rattle.std.specs.Prelude.{◌≡◌};
ghost use Rattle.definition.specs.Calls.{trace_fits};
ghost use Rattle.clock.specs.Trace.{lent_trace};

use crate::timetable::is_timetable;

// A ride trace: the stamps of its records, and the word of each. Not tested: a caller may lend any two lists.
#[derive(Clone, Copy)]
pub struct Trace<'a> {
    pub stamps: &'a [u64],
    pub words: &'a [u16],
}

impl<'a> Trace<'a> {
    // Each stamp has its word, and the stamps are as those of a timetable.
    #[tactic(auto, using(base::proofs::Tests::choices), unfolding(definition::specs::Calls::trace_fits, base::specs::Test::all))]
    pub fn fits(self) -> bool
        ensures { result ≡ trace_fits (lent_trace self.entry) }
    {
        self.stamps.len() == self.words.len() && is_timetable(self.stamps)
    }
}
