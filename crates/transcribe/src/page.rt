// One call's page: the refusal's line, or the header and the lines of a run that is taken. Memory, layout, lists and buffer go from function to
// function apart, as the call was given them: each of them hands them on once.
ghost use Rattle.std.specs.Prelude.{ℕ, ◌-◌, ◌≤◌, ◌≡◌, List, length, true};
ghost use Rattle.base.specs.Verdict.{verdict, unrefused};
ghost use Rattle.definition.specs.Setting.{Setting, setting_of};
ghost use Rattle.definition.specs.Calls.{transcript_tests};
ghost use Rattle.steplines.specs.declared.remaining.Remaining.TheVariants.{RefusalLine as REFUSAL};
ghost use Rattle.steplines.specs.Page.{page_from};
ghost use Rattle.clock.specs.Trace.{lent_trace};
ghost use Rattle.clock.specs.Requests.{setting_by, Tested};
ghost use Rattle.transcribe.specs.Transcribe.{page_of};
ghost use Rattle.transcribe.specs.Promise.{world_of, page_by};
ghost use Rattle.transcribe.specs.internal.Filled.{steps_remain, PageFilled};

use crate::progress::{Filled, Transcript};
use admission::verdict::judge_transcript;
use base::refusal::SheetRefusal;
use clock::lists::RequestLists;
use clock::trace::Trace;
use layout::sections::Layout;
use steplines::remaining::Remaining;
use steplines::steps::{LINE_ROOM, write_steps};
use storage::control::Control;
use transcript::line::{header_line, refusal_line};

// The line of a sheet's refusal.
#[tactic(auto, using(crate::proofs::FilledLaws::unfilled, crate::proofs::FilledLaws::refusal_full))]
pub fn refusal_page(t: Transcript, out: &mut [u8], refused: SheetRefusal) -> Filled
    requires { t.remaining ≡ REFUSAL refused }
    ensures { (mem : List ℕ) (S : Setting) → PageFilled (page_of S (length out.old) t.steps (t.budget - t.steps) (world_of t mem) t.remaining) unrefused t result mem out.old out.new 0 }
{
    if out.len() < LINE_ROOM {
        return Filled::empty(t);
    }
    let k = refusal_line(out, refused);
    Filled {
        transcript: Transcript {
            remaining: Remaining::Nothing,
            ..t
        },
        written: Ok(k),
    }
}

// The lines of a run from where it stands, behind what is filled.
#[tactic(auto, using(crate::proofs::FilledLaws::run_filled))]
fn run_page(
    t: Transcript,
    mem: &mut [u8],
    layout: Layout,
    lists: RequestLists<'_>,
    out: &mut [u8],
    start: usize,
) -> Filled
    requires room { start ≤ length out.old }
    requires tested { Tested lists }
    ensures { PageFilled (page_from (setting_by layout lists.entry) (length out.old - start) t.steps (t.budget - t.steps) (world_of t mem.old)) unrefused t result mem.new out.old out.new start }
{
    let mut registers = t.state.registers;
    let mut saved = t.state.saved;
    let done = write_steps(
        Control::of(t.state),
        &mut registers,
        &mut saved,
        mem,
        layout,
        lists,
        t.steps,
        t.budget,
        out,
        start,
    );
    Filled {
        transcript: Transcript {
            state: done.control.state(registers, saved),
            steps: done.steps,
            remaining: done.remaining,
            ..t
        },
        written: Ok(done.filled),
    }
}

// The page of a run that is taken: the header first, where it is still to come, and the lines of the run behind it. One function writes both: with
// the header in another, what that handed back was copied, and the library's archive needed memcpy for it.
#[tactic(auto, using(crate::proofs::FilledLaws::unfilled, crate::proofs::FilledLaws::header_full))]
fn taken_page(
    t: Transcript,
    mem: &mut [u8],
    layout: Layout,
    lists: RequestLists<'_>,
    out: &mut [u8],
) -> Filled
    requires remain { steps_remain t.remaining ≡ true }
    requires tested { Tested lists }
    ensures { PageFilled (page_of (setting_by layout lists.entry) (length out.old) t.steps (t.budget - t.steps) (world_of t mem.old) t.remaining) unrefused t result mem.new out.old out.new 0 }
{
    let Remaining::Header = t.remaining else {
        return run_page(t, mem, layout, lists, out, 0);
    };
    if out.len() < LINE_ROOM {
        return Filled::empty(t);
    }
    let start = header_line(out);
    run_page(t, mem, layout, lists, out, start)
}

// The page of a run, if it is taken: its tests are made once.
#[tactic(auto, using(crate::proofs::FilledLaws::refused_filled, crate::proofs::FilledLaws::taken_filled))]
pub fn tested_page(
    t: Transcript,
    mem: &mut [u8],
    layout: Layout,
    stamps: &[u64],
    trace: Trace<'_>,
    out: &mut [u8],
) -> Filled
    requires { steps_remain t.remaining ≡ true }
    ensures { PageFilled (page_by (setting_of layout stamps.now (lent_trace trace.entry)) (length out.old) t mem.old (verdict (transcript_tests (setting_of layout stamps.now (lent_trace trace.entry)) t.budget (world_of t mem.old)))) (verdict (transcript_tests (setting_of layout stamps.now (lent_trace trace.entry)) t.budget (world_of t mem.old))) t result mem.new out.old out.new 0 }
{
    match judge_transcript(t.state, mem, layout, stamps, trace, t.budget) {
        Err(refusal) => Filled {
            transcript: t,
            written: Err(refusal),
        },
        Ok(()) => taken_page(t, mem, layout, RequestLists { stamps, trace }, out),
    }
}
