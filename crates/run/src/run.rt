// Many steps: a run stops at the first of halted, clock above 2^62, stop address, budget spent.
ghost use Rattle.std.specs.Prelude.{◌≡◌};
ghost use Rattle.base.specs.Verdict.{unrefused};
ghost use Rattle.clock.specs.Requests.{setting_by, Tested};
ghost use Rattle.definition.specs.State.{world};
ghost use Rattle.definition.specs.Run.{at_stop};
ghost use Rattle.definition.specs.Calls.{called, run_answered};
ghost use Rattle.storage.specs.Control.{with_registers};

use answers::answer::{End, Stopped};
use base::limits::LAST_CLOCK;
use base::refusal::Refusal;
use clock::lists::RequestLists;
use definition::stop_address::StopAddress;
use fast::steps::{fast_steps, stop_pc_of};
use inplace::in_place::{after_fast, fast_until, put_back};
use layout::sections::Layout;
use step::step::{is_held, take_step};
use storage::answered::Answered;
use storage::control::Control;

// A pc is at the stop address.
fn is_at(stop: StopAddress, pc: u16) -> bool
    ensures { result ≡ at_stop stop pc }
{
    match stop {
        StopAddress::Nowhere => false,
        StopAddress::At(address) => pc == address,
    }
}

// The steps of a run, counted. Where there is a burst of fast steps it is taken, else one step, both as in `one_step` (docs/DECISIONS.md, *The loop
// over step*); the indices of the upcoming stamp and record go along with the clock, and the registers stay where they lie.
pub fn run_steps(
    control: Control,
    registers: &mut [u16; 16],
    saved: &mut [u16; 16],
    mem: &mut [u8],
    layout: Layout,
    lists: RequestLists<'_>,
    stop: StopAddress,
    budget: u64,
) -> Answered<Control, Result<Stopped, Refusal>>
    ensures { Tested lists.entry → called (with_registers registers.new saved.new result.machine) mem.new result.answer ≡ run_answered (setting_by layout lists.entry) stop budget (world (with_registers registers.old saved.old control) mem.old) unrefused }
{
    let mut current = control;
    let mut requests = lists.requests_at(control.time.clock);
    let stop_pc = stop_pc_of(stop);
    let mut steps: u64 = 0;
    // Document 01 names this form: a loop over step that yields its ending by break.
    let end = loop {
        if current.halted {
            break End::Halted;
        }
        if current.time.clock > LAST_CLOCK {
            break End::Clock;
        }
        if is_at(stop, registers[0]) {
            break End::Address;
        }
        if steps == budget {
            break End::Spent;
        }
        let until = fast_until(current, registers[2], requests);
        let burst = fast_steps(
            registers,
            current.previous,
            current.time.clock,
            is_held(current.context),
            mem,
            layout,
            until,
            budget - steps,
            stop_pc,
        );
        if burst.steps > 0 {
            current = after_fast(current, burst, saved);
            requests = requests.at(current.time.clock);
            steps += burst.steps;
            continue;
        }
        let m = current.state(*registers, *saved);
        let done = take_step(m, mem, layout, requests);
        current = put_back(done.machine, registers, saved);
        requests = requests.at(current.time.clock);
        steps += 1;
    };
    Answered {
        machine: current,
        answer: Ok(Stopped { end, steps }),
    }
}
