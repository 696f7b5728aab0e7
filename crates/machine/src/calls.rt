// What callers can do: start, step, run. Whatever they hand in, they get the definition's answer or one numbered refusal.
// Layout and lists are handed in apart: behind the tests stamps and trace go on as `RequestLists` and the layout as it is, so a struct of all three
// would be taken apart at once.
ghost use Rattle.definition.specs.Setting.{setting_of};
ghost use Rattle.definition.specs.State.{world};
ghost use Rattle.definition.specs.Promises.{StartPromise, StepPromise, RunPromise};
ghost use Rattle.storage.specs.Control.{with_registers};
ghost use Rattle.clock.specs.Trace.{lent_trace};

use admission::verdict::{judge_run, judge_step, memory_is_whole};
use answers::answer::{Outcome, Stopped};
use base::refusal::Refusal;
use clock::lists::RequestLists;
use clock::time::start_time;
use clock::trace::Trace;
use definition::state::State;
use definition::stop_address::StopAddress;
use inplace::in_place::one_step;
use interrupt::service::{reset_address, reset_state};
use layout::sections::Layout;
use run::run::run_steps;
use storage::answered::Answered;
use storage::control::Control;
use storage::registers::cleared_registers;

// The machine that callers hold, a state: each call takes it by value and hands the next one back. Memory is lent beside it.
#[derive(Clone, Copy)]
pub struct Machine(pub State);

// Step and run, and a transcript's page, take a state apart around one call each. A function that takes the call as a closure was tried: the
// closure captures the memory, and its caller then learns no byte of what the memory became.
impl Machine {
    // The start state of a memory. Where it is refused, the machine beside the answer is that of an empty memory.
    #[tactic(auto, using(crate::proofs::AnswerLaws::start_taken))]
    pub fn start(mem: &[u8]) -> Answered<Machine, Result<(), Refusal>>
        ensures { StartPromise mem.now result.machine.0 result.answer }
    {
        if !memory_is_whole(mem) {
            return Answered {
                machine: Machine(reset_state(cleared_registers(0), start_time())),
                answer: Err(Refusal::Map),
            };
        }
        Answered {
            machine: Machine(reset_state(cleared_registers(reset_address(mem)), start_time())),
            answer: Ok(()),
        }
    }

    // One step.
    pub fn step(
        self,
        mem: &mut [u8],
        layout: Layout,
        stamps: &[u64],
        trace: Trace<'_>,
    ) -> Answered<Machine, Result<Outcome, Refusal>>
        ensures { StepPromise (setting_of layout stamps.now (lent_trace trace.entry)) (world self.0 mem.old) (world result.machine.0 mem.new) result.answer }
    {
        let mut registers = self.0.registers;
        let mut saved = self.0.saved;
        let stepped = step_in_place(
            Control::of(self.0),
            &mut registers,
            &mut saved,
            mem,
            layout,
            stamps,
            trace,
        );
        Answered {
            machine: Machine(stepped.machine.state(registers, saved)),
            answer: stepped.answer,
        }
    }

    // Steps until the machine is halted, its clock is above 2^62, its pc is the stop address or the budget is spent.
    pub fn run(
        self,
        mem: &mut [u8],
        layout: Layout,
        stamps: &[u64],
        trace: Trace<'_>,
        stop: StopAddress,
        budget: u64,
    ) -> Answered<Machine, Result<Stopped, Refusal>>
        ensures { RunPromise (setting_of layout stamps.now (lent_trace trace.entry)) stop budget (world self.0 mem.old) (world result.machine.0 mem.new) result.answer }
    {
        let mut registers = self.0.registers;
        let mut saved = self.0.saved;
        let ran = run_in_place(
            Control::of(self.0),
            &mut registers,
            &mut saved,
            mem,
            layout,
            stamps,
            trace,
            stop,
            budget,
        );
        Answered {
            machine: Machine(ran.machine.state(registers, saved)),
            answer: ran.answer,
        }
    }
}

// One step of a state whose registers are lent: they are changed where they lie.
#[tactic(auto, using(crate::proofs::AnswerLaws::step_refused, base::proofs::Tests::choices), unfolding(base::specs::FirstFailure::first_failure))]
pub fn step_in_place(
    control: Control,
    registers: &mut [u16; 16],
    saved: &mut [u16; 16],
    mem: &mut [u8],
    layout: Layout,
    stamps: &[u64],
    trace: Trace<'_>,
) -> Answered<Control, Result<Outcome, Refusal>>
    ensures { StepPromise (setting_of layout stamps.now (lent_trace trace.entry)) (world (with_registers registers.old saved.old control) mem.old) (world (with_registers registers.new saved.new result.machine) mem.new) result.answer }
{
    match judge_step(control, registers, saved, mem, layout, stamps, trace) {
        Err(refusal) => Answered {
            machine: control,
            answer: Err(refusal),
        },
        Ok(()) => {
            let lists = RequestLists { stamps, trace };
            let requests = lists.requests_at(control.time.clock);
            let moved = one_step(control, registers, saved, mem, layout, requests);
            Answered {
                machine: moved.machine,
                answer: Ok(moved.answer),
            }
        }
    }
}

// A run of a state whose registers are lent: they are changed where they lie.
#[tactic(auto, using(crate::proofs::AnswerLaws::run_refused, base::proofs::Tests::choices), unfolding(base::specs::FirstFailure::first_failure))]
pub fn run_in_place(
    control: Control,
    registers: &mut [u16; 16],
    saved: &mut [u16; 16],
    mem: &mut [u8],
    layout: Layout,
    stamps: &[u64],
    trace: Trace<'_>,
    stop: StopAddress,
    budget: u64,
) -> Answered<Control, Result<Stopped, Refusal>>
    ensures { RunPromise (setting_of layout stamps.now (lent_trace trace.entry)) stop budget (world (with_registers registers.old saved.old control) mem.old) (world (with_registers registers.new saved.new result.machine) mem.new) result.answer }
{
    match judge_run(
        control, registers, saved, mem, layout, stamps, trace, stop, budget,
    ) {
        Err(refusal) => Answered {
            machine: control,
            answer: Err(refusal),
        },
        Ok(()) => {
            let lists = RequestLists { stamps, trace };
            run_steps(control, registers, saved, mem, layout, lists, stop, budget)
        }
    }
}
