// A machine whose registers are lent: they are changed where they lie, and the rest of it goes by value.
ghost use Rattle.std.specs.Prelude.{◌≡◌, true, ◌≤◌};
ghost use Rattle.base.specs.Limits.{last_clock};
ghost use Rattle.layout.specs.declared.sections.Layout.{Layout as LAYOUT};
ghost use Rattle.definition.specs.State.{world};
ghost use Rattle.definition.specs.Interrupt.{gives};
ghost use Rattle.definition.specs.Step.{saved_for};
ghost use Rattle.definition.specs.Run.{step_of};
ghost use Rattle.clock.specs.Requests.{setting_with, AtClock};
ghost use Rattle.storage.specs.Control.{with_registers};
ghost use Rattle.inplace.specs.internal.InPlace.{control_after, FastUntil};

use alu::status::gie_is_set;
use answers::answer::Outcome;
use clock::time::Requests;
use definition::state::{SavedContext, State, Time};
use definition::stop_address::StopAddress;
use fast::steps::{FastProgress, fast_steps, stop_pc_of};
use layout::sections::Layout;
use step::step::{is_held, take_step};
use storage::answered::Answered;
use storage::control::Control;
use storage::registers::zero_registers;

// What is beside the registers after fast steps. Where nothing is held, the saved copy is handed back zero, as by every step.
pub fn after_fast(control: Control, progress: FastProgress, saved: &mut [u16; 16]) -> Control
    ensures { (result ≡ control_after control progress) × (saved.new ≡ saved_for control.context saved.old) }
{
    clear_unheld(control.context, saved);
    Control {
        previous: progress.previous,
        time: Time {
            clock: progress.clock,
            ..control.time
        },
        ..control
    }
}

// Where nothing is held, the saved copy is handed back zero: in place what `saved_for` gives by value.
fn clear_unheld(context: Option<SavedContext>, saved: &mut [u16; 16])
    ensures { saved.new ≡ saved_for context saved.old }
{
    if !is_held(context) {
        *saved = zero_registers();
    }
}

// The registers of a state back where they are lent, and what is beside them.
pub fn put_back(next: State, registers: &mut [u16; 16], saved: &mut [u16; 16]) -> Control
    ensures { with_registers registers.new saved.new result ≡ next }
{
    // Through two locals: of a field that is copied to what is lent the check finds no proof.
    let file = next.registers;
    let held = next.saved;
    *registers = file;
    *saved = held;
    Control::of(next)
}

// The clock value up to which fast steps may go: up to it time only goes on and no interrupt is due. 0 where there is none: no step ends at or before it.
pub fn fast_until(control: Control, status: u16, requests: Requests<'_>) -> u64
    ensures { (L : LAYOUT) → AtClock requests.entry control.time.clock → FastUntil (setting_with L requests.entry) status control result }
{
    requests.no_event_until(control.halted, !gie_is_set(status), control.time)
}

// One step by itself, fast if it can be. A transcript's line and the loop of a run have its parts once more (docs/DECISIONS.md, *The loop over step*).
pub fn one_step(
    control: Control,
    registers: &mut [u16; 16],
    saved: &mut [u16; 16],
    mem: &mut [u8],
    layout: Layout,
    requests: Requests<'_>,
) -> Answered<Control, Outcome>
    ensures { control.time.clock ≤ last_clock → AtClock requests.entry control.time.clock → gives (with_registers registers.new saved.new result.machine) mem.new result.answer ≡ step_of (setting_with layout requests.entry) (world (with_registers registers.old saved.old control) mem.old) }
{
    let until = fast_until(control, registers[2], requests);
    let burst = fast_steps(
        registers,
        control.previous,
        control.time.clock,
        is_held(control.context),
        mem,
        layout,
        until,
        1,
        stop_pc_of(StopAddress::Nowhere),
    );
    if burst.steps > 0 {
        return Answered {
            machine: after_fast(control, burst, saved),
            answer: Outcome::Ran,
        };
    }
    let m = control.state(*registers, *saved);
    let done = take_step(m, mem, layout, requests);
    Answered {
        machine: put_back(done.machine, registers, saved),
        answer: done.answer,
    }
}
