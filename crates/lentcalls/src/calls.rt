// Start, step and run. Each answers 0, or the number of the refusal, which leaves all that is lent as it came.
// A machine's numbers and its memory are lent apart, and in no struct: the C interface has them so.
ghost use Rattle.std.specs.Prelude.{◌≡◌};
ghost use Rattle.definition.specs.Answers.{cause_of};
ghost use Rattle.clock.specs.Trace.{lent_trace};
ghost use Rattle.lentstate.specs.State.{numbers};
ghost use Rattle.lentcalls.specs.Calls.{StartReturns, StepReturns, RunReturns};

use answers::answer::Outcome;
use clock::trace::Trace;
use definition::stop_address::StopAddress;
use layout::sections::Layout;
use lentstate::state::{control_of, hand_back, hand_control};
use machine::calls::{Machine, run_in_place, step_in_place};

// The number of a step's cause, 0 where it is no reset: the C interface has numbers.
fn cause_of(outcome: Outcome) -> u8
    ensures { result ≡ cause_of outcome }
{
    match outcome {
        Outcome::Reset(cause) => u8::from(cause),
        _ => 0,
    }
}

// The start state of a memory.
#[tactic(auto, using(base::proofs::Tests::choices, base::proofs::Refusals::number_not_zero), unfolding(base::specs::Kept::unless_refused))]
pub fn start_lent(
    registers: &mut [u16; 16],
    saved: &mut [u16; 16],
    control: &mut [u16; 5],
    time: &mut [u64; 3],
    mem: &[u8],
) -> u8
    ensures { StartReturns mem.now (numbers registers.old saved.old control.old time.old) (numbers registers.new saved.new control.new time.new) result }
{
    let started = Machine::start(mem);
    match started.answer {
        Err(refusal) => u8::from(refusal),
        Ok(()) => {
            hand_back(started.machine.0, registers, saved, control, time);
            0
        }
    }
}

// One step: its kind, as the bench's letter, and for a reset the number of its cause, else 0.
#[tactic(auto, using(base::proofs::Tests::choices, base::proofs::Refusals::number_not_zero, lentstate::proofs::LentLaws::lent_machine, lentstate::proofs::LentLaws::lent_numbers), unfolding(base::specs::Kept::unless_refused, crate::specs::Calls::step_on))]
pub fn step_lent(
    registers: &mut [u16; 16],
    saved: &mut [u16; 16],
    control: &mut [u16; 5],
    time: &mut [u64; 3],
    mem: &mut [u8],
    layout: &[u16; 5],
    stamps: &[u64],
    trace: Trace<'_>,
    kind: &mut u8,
    cause: &mut u8,
) -> u8
    ensures { StepReturns mem.old layout.now stamps.now (lent_trace trace.entry) (numbers registers.old saved.old control.old time.old) (numbers registers.new saved.new control.new time.new) mem.new kind.old kind.new cause.old cause.new result }
{
    let rest = control_of(*control, *time);
    let stepped = step_in_place(
        rest,
        registers,
        saved,
        mem,
        Layout::from(*layout),
        stamps,
        trace,
    );
    match stepped.answer {
        Err(refusal) => u8::from(refusal),
        Ok(outcome) => {
            hand_control(stepped.machine, control, time);
            *kind = outcome.letter();
            *cause = cause_of(outcome);
            0
        }
    }
}

// Many steps: why it stopped, by its letter, and the number of steps.
#[tactic(auto, using(base::proofs::Tests::choices, base::proofs::Refusals::number_not_zero, lentstate::proofs::LentLaws::lent_machine, lentstate::proofs::LentLaws::lent_numbers), unfolding(base::specs::Kept::unless_refused, crate::specs::Calls::run_on))]
pub fn run_lent(
    registers: &mut [u16; 16],
    saved: &mut [u16; 16],
    control: &mut [u16; 5],
    time: &mut [u64; 3],
    mem: &mut [u8],
    layout: &[u16; 5],
    stamps: &[u64],
    trace: Trace<'_>,
    stop: StopAddress,
    budget: u64,
    end: &mut u8,
    steps: &mut u64,
) -> u8
    ensures { RunReturns mem.old layout.now stamps.now (lent_trace trace.entry) stop budget (numbers registers.old saved.old control.old time.old) (numbers registers.new saved.new control.new time.new) mem.new end.old end.new steps.old steps.new result }
{
    let rest = control_of(*control, *time);
    let ran = run_in_place(
        rest,
        registers,
        saved,
        mem,
        Layout::from(*layout),
        stamps,
        trace,
        stop,
        budget,
    );
    match ran.answer {
        Err(refusal) => u8::from(refusal),
        Ok(stopped) => {
            hand_control(ran.machine, control, time);
            *end = stopped.end.letter();
            *steps = stopped.steps;
            0
        }
    }
}
