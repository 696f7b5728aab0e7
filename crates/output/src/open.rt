// A sheet's run before its first line: the sheet is read, and its memory, timetable and trace are set up.
ghost use Rattle.std.specs.Prelude.{◌≡◌, true};
ghost use Rattle.definition.specs.Setting.{trace_of};
ghost use Rattle.definition.specs.State.{start};
ghost use Rattle.definition.specs.Calls.{whole_memory};
ghost use Rattle.output.specs.Open.{no_layout, run_room, OpenPromise};

use base::limits::{MEMORY_BYTES, MOST_STAMPS};
use layout::sections::{Layout, Span};
use loader::load::{load_memory, load_stamps};
use machine::calls::Machine;
use sheet::reader::read_sheet;
use sheet::trace::load_setup_trace;
use steplines::remaining::Remaining;
use transcribe::progress::Transcript;

// An opened sheet: its layout, how many of the lent stamps and of the lent records are its own, and its transcript, of which all is still to be
// written. Counts and no slices: the promise sets the answer equal to the definition's, which has no borrowed part.
#[derive(Clone, Copy)]
pub struct SheetRun {
    pub layout: Layout,
    pub stamps: usize,
    pub records: usize,
    pub transcript: Transcript,
}

// A layout of zeros, and no Option: the caller of a refused sheet's page hands one on, and nothing looks at it.
fn no_layout() -> Layout
    ensures { result ≡ no_layout }
{
    Layout {
        code: Span { start: 0, end: 0 },
        data: Span { start: 0, end: 0 },
        service: 0,
    }
}

// A transcript of which nothing is written yet: the machine is in the start state of its memory.
#[tactic(auto, using(base::proofs::Tests::choices), unfolding(definition::specs::Calls::start_call, base::specs::FirstFailure::first_failure))]
fn unwritten(mem: &[u8], budget: u64, remaining: Remaining) -> Transcript
    ensures { (result ≡ record { state = result.state; steps = 0; budget = budget; remaining = remaining }) × (whole_memory mem.now ≡ true → result.state ≡ start mem.now) }
{
    Transcript {
        state: Machine::start(mem).machine.0,
        steps: 0,
        budget,
        remaining,
    }
}

// Opens a sheet. Of one that is refused only the refusal's line is to be written, for which no layout is needed.
pub fn open_sheet(
    text: &[u8],
    mem: &mut [u8; MEMORY_BYTES],
    stamps: &mut [u64; MOST_STAMPS],
    trace_stamps: &mut [u64; MOST_STAMPS],
    trace_words: &mut [u16; MOST_STAMPS],
) -> SheetRun
    ensures { OpenPromise text.now (run_room mem.old stamps.old (trace_of trace_stamps.old trace_words.old)) result (run_room mem.new stamps.new (trace_of trace_stamps.new trace_words.new)) }
{
    match read_sheet(text) {
        Err(refused) => SheetRun {
            layout: no_layout(),
            stamps: 0,
            records: 0,
            transcript: unwritten(mem, 0, Remaining::RefusalLine(refused)),
        },
        Ok(setup) => {
            load_memory(mem, text);
            load_stamps(stamps, text);
            load_setup_trace(setup, trace_stamps, trace_words, text);
            SheetRun {
                layout: setup.layout,
                stamps: setup.stamps,
                records: setup.records,
                transcript: unwritten(mem, setup.budget, Remaining::Header),
            }
        }
    }
}
