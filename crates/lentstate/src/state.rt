// The machine as numbers that a caller lends, apart and in no struct, as the C interface has them. Functions and no `From`: the numbers are the C
// interface's, of which the crates of stamp, time and visit know nothing.
ghost use Rattle.std.specs.Prelude.{◌≡◌};
ghost use Rattle.lentstate.specs.State.{stamp_of, stamp_number, time_of, time_fields, odd_flag, context_of, control_fields, numbers, machine_of, numbers_of};
ghost use Rattle.lentstate.specs.internal.Control.{control_from};

use base::word::byte_of;
use definition::state::{SavedContext, State, Time};
use storage::control::Control;

// A stamp: 0 is none, in the numbers of the C interface.
#[tactic(auto, using(base::proofs::Tests::choices), unfolding(crate::specs::State::stamp_of))]
fn stamp_of(n: u64) -> Option<u64>
    ensures { result ≡ stamp_of n }
{
    (n != 0).then_some(n)
}

// The number of a stamp: 0 is none, in the numbers of the C interface.
fn stamp_number(stamp: Option<u64>) -> u64
    ensures { result ≡ stamp_number stamp }
{
    stamp.unwrap_or(0)
}

// The time: clock, slot, alarm.
#[tactic(auto, unfolding(crate::specs::State::time_of))]
fn time_of(fields: [u64; 3]) -> Time
    ensures { result ≡ time_of fields }
{
    let [clock, slot, alarm] = fields;
    Time {
        clock,
        slot: stamp_of(slot),
        alarm: stamp_of(alarm),
    }
}

// The three numbers of the time.
#[tactic(auto, unfolding(crate::specs::State::time_fields))]
fn time_fields(time: Time) -> [u64; 3]
    ensures { result ≡ time_fields time }
{
    [
        time.clock,
        stamp_number(time.slot),
        stamp_number(time.alarm),
    ]
}

// `halted` or `held` is neither 0 nor 1.
#[tactic(auto, unfolding(crate::specs::State::odd_flag, base::specs::Test::any))]
fn has_odd_flag(fields: [u16; 5]) -> bool
    ensures { result ≡ odd_flag fields }
{
    fields[1] > 1 || fields[2] > 1
}

// The visit that the numbers of the C interface tell: the flag `held` says whether there is one. An odd flag gives a visit of no frame.
#[tactic(auto, using(base::proofs::Tests::choices), unfolding(crate::specs::State::context_of))]
fn context_of(fields: [u16; 5]) -> Option<SavedContext>
    ensures { result ≡ context_of fields }
{
    if has_odd_flag(fields) {
        return Some(SavedContext {
            previous: fields[3],
            age: 255,
        });
    }
    if fields[2] == 0 {
        return None;
    }
    Some(SavedContext {
        previous: fields[3],
        age: byte_of(fields[4]),
    })
}

// Previous address, halted, held, held previous address, held age.
fn control_fields(previous: u16, halted: bool, context: Option<SavedContext>) -> [u16; 5]
    ensures { result ≡ control_fields previous halted context }
{
    match context {
        None => [previous, u16::from(halted), 0, 0, 0],
        Some(held) => [
            previous,
            u16::from(halted),
            1,
            held.previous,
            u16::from(held.age),
        ],
    }
}

// What the machine has beside its registers.
pub fn control_of(fields: [u16; 5], time: [u64; 3]) -> Control
    ensures { result ≡ control_from fields time }
{
    Control {
        previous: fields[0],
        time: time_of(time),
        context: context_of(fields),
        halted: fields[1] != 0,
    }
}

// The machine of a caller's numbers.
#[tactic(auto, unfolding(crate::specs::State::machine_of))]
pub fn machine_of(
    registers: [u16; 16],
    saved: [u16; 16],
    control: [u16; 5],
    time: [u64; 3],
) -> State
    ensures { result ≡ machine_of (numbers registers saved control time) }
{
    control_of(control, time).state(registers, saved)
}

// Hands back in the caller's numbers what a machine has beside its registers.
pub fn hand_control(rest: Control, control: &mut [u16; 5], time: &mut [u64; 3])
    ensures control_after { control.new ≡ control_fields rest.previous rest.halted rest.context }
    ensures time_after { time.new ≡ time_fields rest.time }
{
    *control = control_fields(rest.previous, rest.halted, rest.context);
    *time = time_fields(rest.time);
}

// Hands a machine back in the caller's numbers.
#[tactic(auto, unfolding(crate::specs::State::numbers_of))]
pub fn hand_back(
    m: State,
    registers: &mut [u16; 16],
    saved: &mut [u16; 16],
    control: &mut [u16; 5],
    time: &mut [u64; 3],
)
    ensures { numbers registers.new saved.new control.new time.new ≡ numbers_of m }
{
    // Through two locals: of a field that is copied to what is lent the check finds no proof.
    let current = m.registers;
    let held = m.saved;
    *registers = current;
    *saved = held;
    hand_control(Control::of(m), control, time);
}
