// Start, step, run and run to an address. Each answers 0, or the number of the refusal, which leaves all that is lent as it came.
ghost use Rattle.definition.specs.Setting.{trace_of};
ghost use Rattle.definition.specs.declared.stop_address.StopAddress.TheVariants.{Nowhere as NOWHERE, At as AT};
ghost use Rattle.lentstate.specs.State.{numbers};
ghost use Rattle.lentcalls.specs.Calls.{StartReturns, StepReturns, RunReturns};

use clock::trace::Trace;
use definition::stop_address::StopAddress;
use lentcalls::calls::{run_lent, start_lent, step_lent};

// The start state of a memory.
#[unsafe(no_mangle)]
pub extern "C" fn enclave_start(
    registers: &mut [u16; 16],
    saved: &mut [u16; 16],
    control: &mut [u16; 5],
    time: &mut [u64; 3],
    mem: &[u8],
) -> u8
    ensures { StartReturns mem.now (numbers registers.old saved.old control.old time.old) (numbers registers.new saved.new control.new time.new) result }
{
    start_lent(registers, saved, control, time, mem)
}

// One step: its kind, as the bench's letter, and for a reset the number of its cause, else 0.
#[unsafe(no_mangle)]
pub extern "C" fn enclave_step(
    registers: &mut [u16; 16],
    saved: &mut [u16; 16],
    control: &mut [u16; 5],
    time: &mut [u64; 3],
    mem: &mut [u8],
    layout: &[u16; 5],
    stamps: &[u64],
    trace_stamps: &[u64],
    trace_words: &[u16],
    kind: &mut u8,
    cause: &mut u8,
) -> u8
    ensures { StepReturns mem.old layout.now stamps.now (trace_of trace_stamps.now trace_words.now) (numbers registers.old saved.old control.old time.old) (numbers registers.new saved.new control.new time.new) mem.new kind.old kind.new cause.old cause.new result }
{
    let trace = Trace {
        stamps: trace_stamps,
        words: trace_words,
    };
    step_lent(
        registers, saved, control, time, mem, layout, stamps, trace, kind, cause,
    )
}

// Many steps, with no stop address: why it stopped, by its letter, and the number of steps.
#[unsafe(no_mangle)]
pub extern "C" fn enclave_run(
    registers: &mut [u16; 16],
    saved: &mut [u16; 16],
    control: &mut [u16; 5],
    time: &mut [u64; 3],
    mem: &mut [u8],
    layout: &[u16; 5],
    stamps: &[u64],
    trace_stamps: &[u64],
    trace_words: &[u16],
    budget: u64,
    end: &mut u8,
    steps: &mut u64,
) -> u8
    ensures { RunReturns mem.old layout.now stamps.now (trace_of trace_stamps.now trace_words.now) NOWHERE budget (numbers registers.old saved.old control.old time.old) (numbers registers.new saved.new control.new time.new) mem.new end.old end.new steps.old steps.new result }
{
    let trace = Trace {
        stamps: trace_stamps,
        words: trace_words,
    };
    let nowhere = StopAddress::Nowhere;
    run_lent(
        registers, saved, control, time, mem, layout, stamps, trace, nowhere, budget, end, steps,
    )
}

// Many steps up to a stop address: why it stopped, by its letter, and the number of steps.
#[unsafe(no_mangle)]
pub extern "C" fn enclave_run_to(
    registers: &mut [u16; 16],
    saved: &mut [u16; 16],
    control: &mut [u16; 5],
    time: &mut [u64; 3],
    mem: &mut [u8],
    layout: &[u16; 5],
    stamps: &[u64],
    trace_stamps: &[u64],
    trace_words: &[u16],
    stop: u16,
    budget: u64,
    end: &mut u8,
    steps: &mut u64,
) -> u8
    ensures { RunReturns mem.old layout.now stamps.now (trace_of trace_stamps.now trace_words.now) (AT stop) budget (numbers registers.old saved.old control.old time.old) (numbers registers.new saved.new control.new time.new) mem.new end.old end.new steps.old steps.new result }
{
    let trace = Trace {
        stamps: trace_stamps,
        words: trace_words,
    };
    let stop = StopAddress::At(stop);
    run_lent(
        registers, saved, control, time, mem, layout, stamps, trace, stop, budget, end, steps,
    )
}
