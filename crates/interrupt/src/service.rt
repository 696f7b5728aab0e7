// Reset, the three ways that a service starts, and the return from a held visit.
ghost use Rattle.std.specs.Prelude.{◌≡◌, ◌+◌, ◌≤◌, [], set};
ghost use Rattle.layout.specs.declared.sections.Layout.{Layout as LAYOUT};
ghost use Rattle.definition.specs.State.{reset_address, from_vector, reset_state};
ghost use Rattle.answers.specs.declared.answer.Outcome.TheVariants.{Ran as RAN};
ghost use Rattle.interrupt.specs.StepResult.{step_result};
ghost use Rattle.definition.specs.Interrupt.{age_of, due, reset, plain, padded, interrupted, chained, back, resumed};
ghost use Rattle.clock.specs.Requests.{setting_with, CanPass};

use alu::status::gie_is_set;
use answers::answer::{Cause, Outcome};
use base::word::{difference, drop_bit_0};
use clock::time::{Requests, emptied};
use definition::state::{SavedContext, State, Time};
use layout::sections::Layout;
use storage::answered::Answered;
use storage::memory::{put_word, word_at};
use storage::registers::{cleared_registers, read_register, set_register, zero_registers};

// Where a reset goes: the word at FFFE less its bit 0.
#[tactic(auto, unfolding(definition::specs::State::reset_address))]
pub fn reset_address(mem: &[u8]) -> u16
    ensures { result ≡ reset_address mem.now }
{
    drop_bit_0(word_at(mem, 0xfffe))
}

// A machine whose previous address is FFFE: at the start, after a reset, and once a service starts.
fn from_vector(
    registers: [u16; 16],
    time: Time,
    context: Option<SavedContext>,
    saved: [u16; 16],
) -> State
    ensures { result ≡ from_vector registers time context saved }
{
    State {
        registers,
        previous: 0xfffe,
        time,
        context,
        saved,
        halted: false,
    }
}

// At the start and after a reset none is held.
pub fn reset_state(registers: [u16; 16], time: Time) -> State
    ensures { result ≡ reset_state registers time }
{
    from_vector(registers, time, None, zero_registers())
}

// Clock minus stamp, at most 6 counted.
#[tactic(auto, unfolding(definition::specs::Interrupt::age_of))]
fn age_of(clock: u64, stamp: u64) -> u8
    ensures { (result ≡ age_of clock stamp) × (result ≤ 6) }
{
    clock.saturating_sub(stamp).min(6) as u8
}

// The interrupt that is due: GIE set and the slot filled.
#[tactic(auto, using(base::proofs::Tests::choices), unfolding(definition::specs::Interrupt::due))]
pub fn due_stamp(m: State) -> Option<u64>
    ensures { result ≡ due m }
{
    if gie_is_set(read_register(m.registers, 2)) {
        return m.time.slot;
    }
    None
}

// Reset: 4 cycles pass; then the slot empties, a held visit is dropped, registers become 0 but pc.
#[tactic(auto, unfolding(definition::specs::Interrupt::reset))]
pub fn reset(m: State, mem: &[u8], requests: Requests<'_>, cause: Cause) -> Answered<State, Outcome>
    ensures { (L : LAYOUT) → CanPass requests.entry m.time.clock 4 → result ≡ step_result (reset (setting_with L requests.entry) cause m mem.now) }
{
    let registers = cleared_registers(reset_address(mem));
    Answered {
        machine: reset_state(registers, emptied(requests.wait(m.time, 4))),
        answer: Outcome::Reset(cause),
    }
}

// The registers of a plain service: sp below the two words, sr 0, pc the service address.
fn pushed_registers(registers: [u16; 16], sp: u16, service: u16) -> [u16; 16]
    ensures { result ≡ set (set (set registers 1 sp) 2 0) 0 service }
{
    set_register(
        set_register(set_register(registers, 1, sp), 2, 0),
        0,
        service,
    )
}

// Plain: pc and sr are pushed, 6 cycles pass; a reset where either word is code or data.
#[tactic(auto, unfolding(definition::specs::Interrupt::plain, definition::specs::Interrupt::reset, definition::specs::Time::emptied, base::specs::Test::all))]
fn plain(
    m: State,
    mem: &mut [u8],
    layout: Layout,
    requests: Requests<'_>,
) -> Answered<State, Outcome>
    ensures { CanPass requests.entry m.time.clock 6 → (result ≡ step_result (plain (setting_with layout requests.entry) m mem.old)) × (mem.new ≡ (plain (setting_with layout requests.entry) m mem.old).memory) }
{
    let registers = m.registers;
    let high = difference(read_register(registers, 1), 2);
    let low = difference(read_register(registers, 1), 4);
    if !(layout.outside(high) && layout.outside(low)) {
        return reset(m, mem, requests, Cause::Write);
    }
    put_word(mem, high, read_register(registers, 0));
    put_word(mem, low, read_register(registers, 2));
    let after = requests.wait(emptied(m.time), 6);
    Answered {
        machine: from_vector(
            pushed_registers(registers, low, layout.service),
            after,
            m.context,
            m.saved,
        ),
        answer: Outcome::Plain,
    }
}

// Padded: 6 - age cycles pass, the slot empties, 6 more pass; registers, previous address and age are held.
#[tactic(auto, unfolding(definition::specs::Interrupt::padded, definition::specs::Time::emptied, definition::specs::Time::pass))]
fn padded(m: State, layout: Layout, requests: Requests<'_>, stamp: u64) -> Answered<State, Outcome>
    ensures { CanPass requests.entry m.time.clock 12 → result ≡ step_result (padded (setting_with layout requests.entry) stamp m []) }
{
    let age = age_of(m.time.clock, stamp);
    let waited = requests.wait(m.time, u64::from(6 - age));
    let after = requests.wait(emptied(waited), 6);
    let context = Some(SavedContext {
        previous: m.previous,
        age,
    });
    Answered {
        machine: from_vector(
            cleared_registers(layout.service),
            after,
            context,
            m.registers,
        ),
        answer: Outcome::Padded,
    }
}

// A service starts after an instruction: padded if it was inside, else plain.
#[tactic(auto, unfolding(definition::specs::Interrupt::interrupted, definition::specs::Interrupt::padded))]
pub fn serve(
    m: State,
    mem: &mut [u8],
    layout: Layout,
    requests: Requests<'_>,
    inside: bool,
    stamp: u64,
) -> Answered<State, Outcome>
    ensures { CanPass requests.entry m.time.clock 12 → (result ≡ step_result (interrupted (setting_with layout requests.entry) inside RAN m mem.old (Some stamp))) × (mem.new ≡ (interrupted (setting_with layout requests.entry) inside RAN m mem.old (Some stamp)).memory) }
{
    if inside {
        return padded(m, layout, requests, stamp);
    }
    plain(m, mem, layout, requests)
}

// Chained: the slot empties, registers are cleared, 6 cycles pass, the visit stays held.
#[tactic(auto, unfolding(definition::specs::Interrupt::chained, definition::specs::Time::emptied))]
fn chained(
    time: Time,
    context: Option<SavedContext>,
    saved: [u16; 16],
    layout: Layout,
    requests: Requests<'_>,
) -> Answered<State, Outcome>
    ensures { CanPass requests.entry time.clock 6 → result ≡ step_result (chained (setting_with layout requests.entry) time context saved []) }
{
    let after = requests.wait(emptied(time), 6);
    Answered {
        machine: from_vector(cleared_registers(layout.service), after, context, saved),
        answer: Outcome::Chained,
    }
}

// Back: registers and previous address return, age cycles pass.
#[tactic(auto, unfolding(definition::specs::Interrupt::back))]
fn back(time: Time, visit: SavedContext, saved: [u16; 16], requests: Requests<'_>) -> State
    ensures { (L : LAYOUT) → CanPass requests.entry time.clock visit.age → result ≡ back (setting_with L requests.entry) time visit.previous visit.age saved }
{
    let after = requests.wait(time, u64::from(visit.age));
    State {
        registers: saved,
        previous: visit.previous,
        time: after,
        context: None,
        saved: zero_registers(),
        halted: false,
    }
}

// RETI while a visit is held, its 5 cycles passed: chained if the slot is filled; else back, and the padded check once more.
#[tactic(auto, unfolding(definition::specs::Interrupt::resumed, definition::specs::Interrupt::interrupted, definition::specs::Interrupt::back, definition::specs::Time::pass))]
pub fn resume(
    time: Time,
    visit: SavedContext,
    saved: [u16; 16],
    layout: Layout,
    requests: Requests<'_>,
) -> Answered<State, Outcome>
    ensures { CanPass requests.entry time.clock (visit.age + 12) → result ≡ step_result (resumed (setting_with layout requests.entry) time visit.previous visit.age saved [] time.slot) }
{
    match time.slot {
        Some(_) => chained(time, Some(visit), saved, layout, requests),
        None => {
            let m = back(time, visit, saved, requests);
            match due_stamp(m) {
                None => Answered {
                    machine: m,
                    answer: Outcome::Back,
                },
                Some(stamp) => padded(m, layout, requests, stamp),
            }
        }
    }
}
