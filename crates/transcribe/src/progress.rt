// Where a transcript stands: the machine, the steps made so far, the budget, and what is still to be written.
ghost use Rattle.std.specs.Prelude.{◌≡◌, Ok};
ghost use Rattle.definition.specs.Setting.{setting_of};
ghost use Rattle.clock.specs.Trace.{lent_trace};
ghost use Rattle.transcribe.specs.Promise.{FillPromise};

use crate::page::{refusal_page, tested_page};
use base::refusal::Refusal;
use clock::trace::Trace;
use definition::state::State;
use layout::sections::Layout;
use steplines::remaining::Remaining;

// A transcript that is being written. The memory of its machine is lent beside it.
#[derive(Clone, Copy)]
pub struct Transcript {
    pub state: State,
    pub steps: u64,
    pub budget: u64,
    pub remaining: Remaining,
}

// What a call hands back: where the transcript stands, and how many bytes were written or why the call was refused.
#[derive(Clone, Copy)]
pub struct Filled {
    pub transcript: Transcript,
    pub written: Result<usize, Refusal>,
}

impl Filled {
    // A page on which there is nothing: the transcript stands where it stood.
    pub(crate) fn empty(transcript: Transcript) -> Filled
        ensures { result ≡ record { transcript = transcript; written = Ok 0 } }
    {
        Filled {
            transcript,
            written: Ok(0),
        }
    }
}

impl Transcript {
    // Continues the run, and fills the buffer with lines as long as there is room for one. A refusal writes nothing.
    pub fn fill(
        self,
        mem: &mut [u8],
        layout: Layout,
        stamps: &[u64],
        trace: Trace<'_>,
        out: &mut [u8],
    ) -> Filled
        ensures { FillPromise (setting_of layout stamps.now (lent_trace trace.entry)) self mem.old out.old result mem.new out.new }
    {
        match self.remaining {
            Remaining::Nothing => Filled::empty(self),
            Remaining::RefusalLine(refused) => refusal_page(self, out, refused),
            Remaining::Header | Remaining::Steps => tested_page(
                self, mem, layout, stamps, trace, out,
            ),
        }
    }
}
