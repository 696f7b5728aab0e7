// The frame that every state the machine can be in keeps: what a caller hands in is tested for it.
ghost use Rattle.std.specs.Prelude.{◌≡◌, ℕ, List};
ghost use Rattle.definition.specs.Setting.{Trace as TRACE, setting_of};
ghost use Rattle.definition.specs.State.{framed_registers, framed_slot, framed_alarm, framed_context, framed};
ghost use Rattle.storage.specs.Control.{with_registers};

use alu::status::gie_is_set;
use base::word::is_even;
use definition::state::{SavedContext, State};
use layout::sections::Layout;
use storage::control::Control;

// pc and sp are even, r3 is zero.
#[tactic(auto, unfolding(base::specs::Test::all, definition::specs::Registers::register))]
fn registers_fit(registers: &[u16; 16]) -> bool
    ensures { result ≡ framed_registers registers.now }
{
    is_even(registers[0]) && is_even(registers[1]) && registers[3] == 0
}

// A slot stamp is not 0 and not above the clock.
#[tactic(auto, unfolding(base::specs::Test::all, definition::specs::Registers::register))]
fn slot_fits(clock: u64, slot: Option<u64>) -> bool
    ensures { result ≡ framed_slot clock slot }
{
    slot.is_none_or(|s| 0 < s && s <= clock)
}

// An alarm is above the clock.
#[tactic(auto, unfolding(base::specs::Test::all, definition::specs::Registers::register))]
fn alarm_fits(clock: u64, alarm: Option<u64>) -> bool
    ensures { result ≡ framed_alarm clock alarm }
{
    alarm.is_none_or(|s| clock < s)
}

// A held visit's age is at most 6, its registers fit with GIE set, its previous address is inside and even.
#[tactic(auto, unfolding(base::specs::Test::all, definition::specs::Registers::register))]
fn context_fits(layout: Layout, saved: &[u16; 16], context: Option<SavedContext>) -> bool
    ensures { result ≡ framed_context layout saved.now context }
{
    context.is_none_or(|visit| {
        visit.age <= 6
            && registers_fit(saved)
            && gie_is_set(saved[2])
            && layout.inside(visit.previous)
            && is_even(visit.previous)
    })
}

// The state keeps the frame, with its registers and its saved registers lent.
#[tactic(auto, unfolding(base::specs::Test::all, definition::specs::State::framed))]
pub fn is_framed(control: Control, registers: &[u16; 16], saved: &[u16; 16], layout: Layout) -> bool
    ensures { (stamps : List ℕ) (trace : TRACE) → result ≡ framed (setting_of layout stamps trace) (with_registers registers.now saved.now control) }
{
    registers_fit(registers)
        && is_even(control.previous)
        && slot_fits(control.time.clock, control.time.slot)
        && alarm_fits(control.time.clock, control.time.alarm)
        && context_fits(layout, saved, control.context)
}

// The state keeps the frame.
#[tactic(auto, unfolding(base::specs::Test::all, definition::specs::Registers::register))]
pub fn state_is_framed(m: State, layout: Layout) -> bool
    ensures { (stamps : List ℕ) (trace : TRACE) → result ≡ framed (setting_of layout stamps trace) m }
{
    is_framed(Control::of(m), &m.registers, &m.saved, layout)
}
