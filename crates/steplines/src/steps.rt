// The lines of steps and of the end, as long as there is room for one.
ghost use Rattle.std.specs.Prelude.{◌≡◌, ◌+◌, ◌-◌, ◌≤◌, length};
ghost use Rattle.std.proofs.lemmas.List.Edits.{sets};
ghost use Rattle.definition.specs.State.{world};
ghost use Rattle.definition.specs.Interrupt.{gives};
ghost use Rattle.definition.specs.Run.{step_of};
ghost use Rattle.storage.specs.Control.{with_registers};
ghost use Rattle.transcript.specs.Transcript.{step_line, end_line};
ghost use Rattle.steplines.specs.Page.{line_room, page_from};
ghost use Rattle.steplines.specs.internal.Course.{course};
ghost use Rattle.steplines.specs.internal.Written.{PageWritten, LastLine, no_line};
ghost use Rattle.base.specs.Limits.{last_clock};
ghost use Rattle.clock.specs.Requests.{setting_by, setting_with, Tested, AtClock};

use crate::remaining::Remaining;
use answers::answer::{End, Outcome};
use base::limits::LAST_CLOCK;
use clock::lists::RequestLists;
use clock::time::Requests;
use definition::stop_address::StopAddress;
use fast::steps::{fast_steps, stop_pc_of};
use inplace::in_place::{after_fast, fast_until, put_back};
use layout::sections::Layout;
use step::step::{is_held, take_step};
use storage::answered::Answered;
use storage::control::Control;
use transcript::line::{end_line, step_line};

// The room that a line is given: no line is longer.
pub const LINE_ROOM: usize = 64;

// What the lines leave: what the machine has beside its registers, the steps made so far, how far the buffer is filled, what remains.
#[derive(Clone, Copy)]
pub struct StepsWritten {
    pub control: Control,
    pub steps: u64,
    pub filled: usize,
    pub remaining: Remaining,
}

// The end of a run without a stop address, where it has come to one: the ends in their order. The loop of a run has them as its breaks, the form that
// document 01 asks for.
#[tactic(auto, using(base::proofs::Tests::choices, std::proofs::lemmas::Bool::Decides::nat_tests), unfolding(crate::specs::internal::Course::course))]
fn course_of(halted: bool, clock: u64, steps: u64, budget: u64) -> Option<End>
    ensures { result ≡ course halted clock steps budget }
{
    if halted {
        return Some(End::Halted);
    }
    if clock > LAST_CLOCK {
        return Some(End::Clock);
    }
    if steps >= budget {
        return Some(End::Spent);
    }
    None
}

// Puts a step's line behind what is filled. That there is room for a line is asked by this, `put_end` and `last_line`, and in no struct: the loop
// tests it once for all three.
#[tactic(auto, using(crate::proofs::PartLaws::part_sets))]
fn put_step(
    out: &mut [u8],
    filled: usize,
    n: u64,
    kind: Outcome,
    clock: u64,
    pc: u16,
    sr: u16,
) -> usize
    requires { filled + line_room ≤ length out.old }
    ensures { (result ≡ filled + length (step_line n kind clock pc sr)) × ((result ≤ length out.old) × (out.new ≡ sets out.old filled (step_line n kind clock pc sr))) }
{
    filled + step_line(&mut out[filled..], n, kind, clock, pc, sr)
}

// Puts the end's line behind what is filled.
#[tactic(auto, using(crate::proofs::PartLaws::part_sets))]
fn put_end(out: &mut [u8], filled: usize, end: End, steps: u64, clock: u64) -> usize
    requires { filled + line_room ≤ length out.old }
    ensures { (result ≡ filled + length (end_line end steps clock)) × ((result ≤ length out.old) × (out.new ≡ sets out.old filled (end_line end steps clock))) }
{
    filled + end_line(&mut out[filled..], end, steps, clock)
}

// No line is written, and steps remain.
fn no_line(control: Control, steps: u64, filled: usize) -> StepsWritten
    ensures { result ≡ no_line control steps filled }
{
    StepsWritten {
        control,
        steps,
        filled,
        remaining: Remaining::Steps,
    }
}

// The end's line, where a run stops.
fn last_line(control: Control, steps: u64, out: &mut [u8], filled: usize, end: End) -> StepsWritten
    requires { filled + line_room ≤ length out.old }
    ensures { LastLine end control steps out.old out.new filled result }
{
    StepsWritten {
        control,
        steps,
        filled: put_end(out, filled, end, steps, control.time.clock),
        remaining: Remaining::Nothing,
    }
}

// The step of a line, fast if it can be. It is `one_step` once more: with two callers that one is not inlined into a step call, which then
// takes a quarter more instructions (docs/DECISIONS.md, *The loop over step*).
fn line_step(
    control: Control,
    registers: &mut [u16; 16],
    saved: &mut [u16; 16],
    mem: &mut [u8],
    layout: Layout,
    requests: Requests<'_>,
) -> Answered<Control, Outcome>
    ensures { control.time.clock ≤ last_clock → AtClock requests.entry control.time.clock → gives (with_registers registers.new saved.new result.machine) mem.new result.answer ≡ step_of (setting_with layout requests.entry) (world (with_registers registers.old saved.old control) mem.old) }
{
    let until = fast_until(control, registers[2], requests);
    let burst = fast_steps(
        registers,
        control.previous,
        control.time.clock,
        is_held(control.context),
        mem,
        layout,
        until,
        1,
        stop_pc_of(StopAddress::Nowhere),
    );
    if burst.steps > 0 {
        return Answered {
            machine: after_fast(control, burst, saved),
            answer: Outcome::Ran,
        };
    }
    let m = control.state(*registers, *saved);
    let done = take_step(m, mem, layout, requests);
    Answered {
        machine: put_back(done.machine, registers, saved),
        answer: done.answer,
    }
}

// The lines of a run, from where it stands, behind what is filled: none where that is past the end of the buffer. The indices of the
// upcoming stamp and record go along with the clock. Buffer and how far it is filled go apart, and not as a `Line`: the caller is left with that.
#[tactic(auto, using(crate::proofs::CourseLaws::course_told))]
pub fn write_steps(
    control: Control,
    registers: &mut [u16; 16],
    saved: &mut [u16; 16],
    mem: &mut [u8],
    layout: Layout,
    lists: RequestLists<'_>,
    made: u64,
    budget: u64,
    out: &mut [u8],
    start: usize,
) -> StepsWritten
    ensures { Tested lists.entry → start ≤ length out.old → PageWritten (page_from (setting_by layout lists.entry) (length out.old - start) made (budget - made) (world (with_registers registers.old saved.old control) mem.old)) out.old out.new start result.filled result.steps (world (with_registers registers.new saved.new result.control) mem.new) result.remaining }
{
    if start > out.len() {
        return no_line(control, made, start);
    }
    let mut current = control;
    let mut requests = lists.requests_at(control.time.clock);
    let mut steps = made;
    let mut filled = start;
    // No `for`: how many lines there is room for is known only as they are written.
    while LINE_ROOM <= out.len() - filled {
        if let Some(end) = course_of(current.halted, current.time.clock, steps, budget) {
            return last_line(current, steps, out, filled, end);
        }
        let done = line_step(current, registers, saved, mem, layout, requests);
        current = done.machine;
        steps += 1;
        filled = put_step(
            out,
            filled,
            steps,
            done.answer,
            current.time.clock,
            registers[0],
            registers[2],
        );
        requests = requests.at(current.time.clock);
    }
    no_line(current, steps, filled)
}
