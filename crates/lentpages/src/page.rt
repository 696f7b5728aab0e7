// A run's transcript, page by page. The call answers 0, or the number of the refusal, which leaves all that is lent as it came.
// What is lent comes apart, and in no struct: the C interface has it so.
ghost use Rattle.std.specs.Prelude.{◌≡◌};
ghost use Rattle.clock.specs.Trace.{lent_trace};
ghost use Rattle.lentstate.specs.State.{numbers};
ghost use Rattle.lentpages.specs.Page.{stage_of, stage_number, page_room, TranscribeReturns};

use clock::trace::Trace;
use layout::sections::Layout;
use lentstate::state::{hand_back, machine_of};
use steplines::remaining::Remaining;
use transcribe::progress::Transcript;

// What a stage's number says is still to be written: 0 the header and what follows it, 1 steps and the end, else nothing. The number
// is the C interface's, of which the crate of `Remaining` knows nothing: no `From`.
#[tactic(auto, using(base::proofs::Tests::choices), unfolding(crate::specs::Page::stage_of))]
fn stage_of(n: u8) -> Remaining
    ensures { result ≡ stage_of n }
{
    match n {
        0 => Remaining::Header,
        1 => Remaining::Steps,
        _ => Remaining::Nothing,
    }
}

// The number of what is still to be written, as the C interface hands it back: a function and no `From`, like `stage_of`.
fn stage_number(remaining: Remaining) -> u8
    ensures { result ≡ stage_number remaining }
{
    match remaining {
        Remaining::Header => 0,
        Remaining::Steps => 1,
        Remaining::Nothing => 2,
        Remaining::RefusalLine(_) => 3,
    }
}

// Continues a run and fills the buffer with the next lines of its transcript, as long as there is room for one. The stage and the steps made
// so far tell where it stands.
#[tactic(auto, using(base::proofs::Tests::choices, base::proofs::Refusals::number_not_zero), unfolding(base::specs::Kept::unless_refused, crate::specs::Page::page_verdict, crate::specs::Page::page_on, crate::specs::Page::transcript_of))]
pub fn transcribe_lent(
    registers: &mut [u16; 16],
    saved: &mut [u16; 16],
    control: &mut [u16; 5],
    time: &mut [u64; 3],
    mem: &mut [u8],
    layout: &[u16; 5],
    stamps: &[u64],
    trace: Trace<'_>,
    budget: u64,
    stage: &mut u8,
    steps: &mut u64,
    out: &mut [u8],
    written: &mut u64,
) -> u8
    ensures { TranscribeReturns layout.now stamps.now (lent_trace trace.entry) budget (page_room (numbers registers.old saved.old control.old time.old) mem.old stage.old steps.old out.old written.old) (page_room (numbers registers.new saved.new control.new time.new) mem.new stage.new steps.new out.new written.new) result }
{
    let t = Transcript {
        state: machine_of(*registers, *saved, *control, *time),
        steps: *steps,
        budget,
        remaining: stage_of(*stage),
    };
    let done = t.fill(mem, Layout::from(*layout), stamps, trace, out);
    match done.written {
        Err(refusal) => u8::from(refusal),
        Ok(count) => {
            let next = done.transcript;
            hand_back(next.state, registers, saved, control, time);
            *stage = stage_number(next.remaining);
            *steps = next.steps;
            *written = count as u64;
            0
        }
    }
}
