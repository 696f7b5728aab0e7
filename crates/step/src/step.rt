// One step: judged, then acting, then its cycles, then the interrupt.
ghost use Rattle.std.specs.Prelude.{◌≡◌, ◌≤◌, ℕ, Bool, List};
ghost use Rattle.layout.specs.declared.sections.Layout.{Layout as LAYOUT};
ghost use Rattle.definition.specs.Time.{device_word};
ghost use Rattle.definition.specs.Act.{registers_after};
ghost use Rattle.definition.specs.State.{is_held};
ghost use Rattle.interrupt.specs.StepResult.{step_result};
ghost use Rattle.definition.specs.Step.{alarmed, is_hlt, saved_for, executed, ordinary, performed, step};
ghost use Rattle.clock.specs.Upcoming.{clock_room, step_room};
ghost use Rattle.clock.specs.Requests.{setting_with, HasPassed, CanPass};

use act::instruction::{memory_after, registers_after};
use answers::answer::Outcome;
use clock::time::{Requests, set_alarm};
use definition::state::{SavedContext, State, Time};
use interrupt::service::{due_stamp, reset, resume, serve};
use isa::instruction::Instruction;
use judge::causes::{is_reti, judge};
use layout::sections::Layout;
use storage::answered::Answered;
use storage::registers::{read_register, zero_registers};

// OUT sets the alarm after its cycles.
fn alarmed_time(registers: [u16; 16], i: Instruction, t: Time) -> Time
    ensures { t.clock ≤ clock_room → result ≡ alarmed registers i t }
{
    match i {
        Instruction::Out(s) => set_alarm(t, read_register(registers, s)),
        _ => t,
    }
}

// The instruction is HLT.
fn is_hlt(i: Instruction) -> bool
    ensures { result ≡ is_hlt i }
{
    matches!(i, Instruction::Hlt)
}

// Where nothing is held, the saved copy is handed back zero.
pub fn saved_for(context: Option<SavedContext>, saved: [u16; 16]) -> [u16; 16]
    ensures { result ≡ saved_for context saved }
{
    match context {
        None => zero_registers(),
        Some(_) => saved,
    }
}

// A visit is held.
pub fn is_held(context: Option<SavedContext>) -> bool
    ensures { result ≡ is_held context }
{
    context.is_some()
}

// What IN gives, where the instruction is IN; no other looks at the device.
#[tactic(auto, unfolding(definition::specs::Act::registers_after))]
fn device_for(i: Instruction, requests: Requests<'_>, t: Time) -> u16
    ensures { (L : LAYOUT) (inside : Bool) (rs mem : List ℕ) → HasPassed requests.entry t.clock → registers_after inside rs result mem i ≡ registers_after inside rs (device_word (setting_with L requests.entry) t) mem i }
{
    match i {
        Instruction::In(_) => requests.device_word(t),
        _ => 0,
    }
}

// The machine after the instruction and its cycles; its address becomes the previous one.
#[tactic(auto, unfolding(definition::specs::Step::executed, definition::specs::Time::pass))]
fn execute(m: State, mem: &[u8], layout: Layout, requests: Requests<'_>, i: Instruction) -> State
    ensures { CanPass requests.entry m.time.clock 5 → result ≡ executed (setting_with layout requests.entry) m mem.now i }
{
    let pc = read_register(m.registers, 0);
    let after = requests.wait(m.time, u64::from(i.cycles()));
    let device = device_for(i, requests, m.time);
    State {
        registers: registers_after(layout.inside(pc), m.registers, device, mem, i),
        previous: pc,
        time: alarmed_time(m.registers, i, after),
        context: m.context,
        saved: saved_for(m.context, m.saved),
        halted: is_hlt(i),
    }
}

// An instruction that does not return from a held visit: HLT halts with no interrupt.
#[tactic(auto, using(base::proofs::Tests::choices, definition::proofs::step::StepLaws::next_clock), unfolding(definition::specs::Step::ordinary, definition::specs::Interrupt::interrupted))]
fn perform_ordinary(
    m: State,
    mem: &mut [u8],
    layout: Layout,
    requests: Requests<'_>,
    i: Instruction,
) -> Answered<State, Outcome>
    ensures { CanPass requests.entry m.time.clock 17 → (result ≡ step_result (ordinary (setting_with layout requests.entry) m mem.old i)) × (mem.new ≡ (ordinary (setting_with layout requests.entry) m mem.old i).memory) }
{
    let next = execute(m, mem, layout, requests, i);
    memory_after(m.registers, mem, i);
    if next.halted {
        return Answered {
            machine: next,
            answer: Outcome::Halted,
        };
    }
    let inside = layout.inside(read_register(m.registers, 0));
    match due_stamp(next) {
        None => Answered {
            machine: next,
            answer: Outcome::Ran,
        },
        Some(stamp) => serve(next, mem, layout, requests, inside, stamp),
    }
}

// RETI while a visit is held returns to it.
#[tactic(auto, using(base::proofs::Tests::choices, interrupt::proofs::Yields::return_yields), unfolding(definition::specs::Step::performed, definition::specs::Time::pass))]
fn perform(
    m: State,
    mem: &mut [u8],
    layout: Layout,
    requests: Requests<'_>,
    i: Instruction,
) -> Answered<State, Outcome>
    ensures { CanPass requests.entry m.time.clock step_room → (result ≡ step_result (performed (setting_with layout requests.entry) m mem.old m.context i)) × (mem.new ≡ (performed (setting_with layout requests.entry) m mem.old m.context i).memory) }
{
    match m.context {
        Some(visit) if is_reti(i) => {
            let after = requests.wait(m.time, u64::from(i.cycles()));
            resume(after, visit, m.saved, layout, requests)
        }
        _ => perform_ordinary(m, mem, layout, requests, i),
    }
}

// One step; a halted machine answers "halted" unchanged.
#[tactic(auto, using(base::proofs::Tests::choices), unfolding(definition::specs::Step::step, definition::specs::Step::step_judged, definition::specs::Interrupt::reset))]
pub fn take_step(
    m: State,
    mem: &mut [u8],
    layout: Layout,
    requests: Requests<'_>,
) -> Answered<State, Outcome>
    ensures { CanPass requests.entry m.time.clock step_room → (result ≡ step_result (step (setting_with layout requests.entry) m mem.old)) × (mem.new ≡ (step (setting_with layout requests.entry) m mem.old).memory) }
{
    if m.halted {
        return Answered {
            machine: m,
            answer: Outcome::Halted,
        };
    }
    match judge(layout, is_held(m.context), m.registers, mem, m.previous) {
        Err(cause) => reset(m, mem, requests, cause),
        Ok(i) => perform(m, mem, layout, requests, i),
    }
}
