// A run's transcript, page by page. The call answers 0, or the number of the refusal, which leaves all that is lent as it came.
ghost use Rattle.definition.specs.Setting.{trace_of};
ghost use Rattle.lentstate.specs.State.{numbers};
ghost use Rattle.lentpages.specs.Page.{page_room, TranscribeReturns};

use clock::trace::Trace;
use lentpages::page::transcribe_lent;

// Continues a run and fills the buffer with the next lines of its transcript, as long as there is room for one. The stage and the steps made
// so far tell where it stands.
#[unsafe(no_mangle)]
pub extern "C" fn enclave_transcribe(
    registers: &mut [u16; 16],
    saved: &mut [u16; 16],
    control: &mut [u16; 5],
    time: &mut [u64; 3],
    mem: &mut [u8],
    layout: &[u16; 5],
    stamps: &[u64],
    trace_stamps: &[u64],
    trace_words: &[u16],
    budget: u64,
    stage: &mut u8,
    steps: &mut u64,
    out: &mut [u8],
    written: &mut u64,
) -> u8
    ensures { TranscribeReturns layout.now stamps.now (trace_of trace_stamps.now trace_words.now) budget (page_room (numbers registers.old saved.old control.old time.old) mem.old stage.old steps.old out.old written.old) (page_room (numbers registers.new saved.new control.new time.new) mem.new stage.new steps.new out.new written.new) result }
{
    let trace = Trace {
        stamps: trace_stamps,
        words: trace_words,
    };
    transcribe_lent(
        registers, saved, control, time, mem, layout, stamps, trace, budget, stage, steps, out,
        written,
    )
}
