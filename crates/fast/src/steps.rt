// Fast steps in a row. Registers are changed where they lie.
ghost use Rattle.std.specs.Prelude.{◌≡◌, ◌≤◌, length};
ghost use Rattle.base.specs.Limits.{memory_bytes, last_clock};
ghost use Rattle.clock.specs.Upcoming.{clock_room};
ghost use Rattle.effect.specs.Effect.{put_if};
ghost use Rattle.fast.specs.Steps.{fetchable, fast_state, stop_pc_of, FastSteps};

use base::limits::{LAST_CLOCK, MEMORY_BYTES};
use definition::stop_address::StopAddress;
use effect::effect::{Fetched, fast_effect};
use layout::access::Right;
use layout::sections::Layout;
use storage::memory::{put_word, word_at};

// No fast step takes more cycles: the most that an instruction takes.
const MOST_FAST_CYCLES: u64 = 5;

// A clock value from which there is room for a step in 64 bits: 2^63.
const CLOCK_ROOM: u64 = 0x8000_0000_0000_0000;

// How far fast steps went: the previous address and the clock after them, and how many they were.
#[derive(Clone, Copy)]
pub struct FastProgress {
    pub previous: u16,
    pub clock: u64,
    pub steps: u64,
}

// The word at pc may be executed.
#[tactic(auto, using(base::proofs::Tests::choices), unfolding(crate::specs::Steps::fetchable, base::specs::Test::all))]
fn may_fetch(layout: Layout, held: bool, previous: u16, pc: u16) -> bool
    ensures { result ≡ fetchable layout held previous pc }
{
    if !layout.may(previous, Right::Execute, pc) {
        return false;
    }
    !(layout.inside(pc) && held)
}

// Puts a word, if one is to be put.
#[tactic(auto, using(base::proofs::Tests::choices), unfolding(effect::specs::Effect::put_if))]
fn put_if(puts: bool, mem: &mut [u8], a: u16, w: u16)
    ensures { mem.new ≡ put_if puts mem.old a w }
{
    if puts {
        put_word(mem, a, w);
    }
}

// The pc that a run stops at; where it has no stop address, a number that no pc is.
pub fn stop_pc_of(stop: StopAddress) -> u32
    ensures { result ≡ stop_pc_of stop }
{
    match stop {
        StopAddress::Nowhere => 0x1_0000,
        StopAddress::At(address) => u32::from(address),
    }
}

// Fast steps, as many as there are and as are left, each begun early enough to be over at the clock value `until` and at another pc than
// `stop_pc`. What is beside the registers comes as numbers and in no `Control`, which would go through memory (docs/DECISIONS.md,
// *The loop over step*).
#[tactic(auto, using(crate::specs::Steps::no_step))]
fn fast_loop(
    registers: &mut [u16; 16],
    previous: u16,
    clock: u64,
    held: bool,
    mem: &mut [u8],
    layout: Layout,
    until: u64,
    left: u64,
    stop_pc: u32,
) -> FastProgress
    requires size { length mem.old ≡ memory_bytes }
    requires room { (clock ≤ clock_room) × (until ≤ last_clock) }
    ensures ran { FastSteps layout held until stop_pc (fast_state registers.old previous clock mem.old) result.steps (fast_state registers.new result.previous result.clock mem.new) }
    ensures within { result.steps ≤ left }
{
    let mut last = previous;
    let mut time = clock;
    let mut steps: u64 = 0;
    // No `for`: `steps` is an answer, which would be made at each of the four ends and behind the loop.
    while steps < left {
        if until < time + MOST_FAST_CYCLES {
            break;
        }
        let pc = registers[0];
        if u32::from(pc) == stop_pc {
            break;
        }
        if !may_fetch(layout, held, last, pc) {
            break;
        }
        let w = word_at(mem, pc);
        let fetched = Fetched {
            address: pc,
            status: registers[2],
            x: registers[usize::from(w / 256 % 16)],
            y: registers[usize::from(w % 16)],
        };
        let Some(e) = fast_effect(fetched, layout, mem, w) else {
            break;
        };
        let n = usize::from(e.number % 16);
        put_if(e.puts, mem, fetched.y, fetched.x);
        registers[0] = e.to;
        registers[n] = e.word;
        registers[2] = e.status;
        last = pc;
        time += e.cycles;
        steps += 1;
    }
    FastProgress {
        previous: last,
        clock: time,
        steps,
    }
}

// The same whatever is lent: none where memory is not whole or a clock value is too late.
#[tactic(auto, using(crate::specs::Steps::no_step))]
pub fn fast_steps(
    registers: &mut [u16; 16],
    previous: u16,
    clock: u64,
    held: bool,
    mem: &mut [u8],
    layout: Layout,
    until: u64,
    left: u64,
    stop_pc: u32,
) -> FastProgress
    ensures ran { FastSteps layout held until stop_pc (fast_state registers.old previous clock mem.old) result.steps (fast_state registers.new result.previous result.clock mem.new) }
    ensures within { result.steps ≤ left }
{
    if mem.len() == MEMORY_BYTES && clock <= CLOCK_ROOM && until <= LAST_CLOCK {
        return fast_loop(
            registers, previous, clock, held, mem, layout, until, left, stop_pc,
        );
    }
    FastProgress {
        previous,
        clock,
        steps: 0,
    }
}
