// Whether a call is taken: the refusals of what it takes, in their order.
ghost use Rattle.std.specs.Prelude.{◌≡◌, leb};
ghost use Rattle.base.specs.Limits.{last_clock, most_budget};
ghost use Rattle.base.specs.Verdict.{verdict};
ghost use Rattle.layout.specs.Rules.{accepted};
ghost use Rattle.definition.specs.Setting.{setting_of};
ghost use Rattle.definition.specs.State.{world};
ghost use Rattle.definition.specs.Calls.{whole_memory, timetable, trace_fits, stop_fits, tests_found, budget_and_stop_tests, transcript_tests, step_tests, run_tests};
ghost use Rattle.storage.specs.Control.{with_registers};
ghost use Rattle.clock.specs.Trace.{lent_trace};

use crate::frame::{is_framed, state_is_framed};
use base::limits::{LAST_CLOCK, MEMORY_BYTES, MOST_BUDGET};
use base::refusal::Refusal;
use base::word::is_even;
use clock::timetable::is_timetable;
use clock::trace::Trace;
use definition::state::State;
use definition::stop_address::StopAddress;
use layout::sections::Layout;
use storage::control::Control;

// Memory is 65,536 bytes.
pub fn memory_is_whole(mem: &[u8]) -> bool
    ensures { result ≡ whole_memory mem.now }
{
    mem.len() == MEMORY_BYTES
}

// The clock is not above 2^62.
pub fn clock_allowed(clock: u64) -> bool
    ensures { result ≡ leb clock last_clock }
{
    clock <= LAST_CLOCK
}

// The budget is at most 1,000,000.
fn budget_allowed(budget: u64) -> bool
    ensures { result ≡ leb budget most_budget }
{
    budget <= MOST_BUDGET
}

// A stop address, where one is given, is even.
fn stop_allowed(stop: StopAddress) -> bool
    ensures { result ≡ stop_fits stop }
{
    match stop {
        StopAddress::Nowhere => true,
        StopAddress::At(address) => is_even(address),
    }
}

// The first of the tests 1 to 6, 10 and 11 that fails, by what each found.
#[tactic(auto, unfolding(base::specs::FirstFailure::first_failure, base::specs::Test::all))]
fn first_refusal(
    whole: bool,
    fence: bool,
    rising: bool,
    traced: bool,
    frame: bool,
    near: bool,
    even: bool,
    early: bool,
) -> Result<(), Refusal>
    ensures { result ≡ verdict (tests_found whole fence rising traced frame (budget_and_stop_tests near even) early) }
{
    if !whole {
        return Err(Refusal::Map);
    }
    if !fence {
        return Err(Refusal::Fence);
    }
    if !rising {
        return Err(Refusal::Timetable);
    }
    if !traced {
        return Err(Refusal::Trace);
    }
    if !frame {
        return Err(Refusal::Frame);
    }
    if !near {
        return Err(Refusal::Distance);
    }
    if !even {
        return Err(Refusal::Landmark);
    }
    if !early {
        return Err(Refusal::Clock);
    }
    Ok(())
}

// The first test of a call that fails: the tests that every call makes, with what is found of frame, budget, stop address and clock.
// Inlined by a hint: with two lists to test the compiler makes it a call, and a step call takes 70 instructions more (docs/PERFORMANCE.md).
#[inline(always)]
fn judge_call(
    mem: &[u8],
    layout: Layout,
    stamps: &[u64],
    trace: Trace<'_>,
    frame: bool,
    near: bool,
    even: bool,
    early: bool,
) -> Result<(), Refusal>
    ensures { result ≡ verdict (tests_found (whole_memory mem.now) (accepted layout) (timetable stamps.now) (trace_fits (lent_trace trace.entry)) frame (budget_and_stop_tests near even) early) }
{
    first_refusal(
        memory_is_whole(mem),
        layout.accepted(),
        is_timetable(stamps),
        trace.fits(),
        frame,
        near,
        even,
        early,
    )
}

// The first test of a run that fails.
pub fn judge_run(
    control: Control,
    registers: &[u16; 16],
    saved: &[u16; 16],
    mem: &[u8],
    layout: Layout,
    stamps: &[u64],
    trace: Trace<'_>,
    stop: StopAddress,
    budget: u64,
) -> Result<(), Refusal>
    ensures { result ≡ verdict (run_tests (setting_of layout stamps.now (lent_trace trace.entry)) stop budget (world (with_registers registers.now saved.now control) mem.now)) }
{
    judge_call(
        mem,
        layout,
        stamps,
        trace,
        is_framed(control, registers, saved, layout),
        budget_allowed(budget),
        stop_allowed(stop),
        clock_allowed(control.time.clock),
    )
}

// The first test of a run's transcript that fails: it has no stop address, so nothing is found against one, and any clock is taken.
#[tactic(auto, using(base::proofs::Tests::choices), unfolding(base::specs::FirstFailure::first_failure))]
pub fn judge_transcript(
    m: State,
    mem: &[u8],
    layout: Layout,
    stamps: &[u64],
    trace: Trace<'_>,
    budget: u64,
) -> Result<(), Refusal>
    ensures { result ≡ verdict (transcript_tests (setting_of layout stamps.now (lent_trace trace.entry)) budget (world m mem.now)) }
{
    judge_call(
        mem,
        layout,
        stamps,
        trace,
        state_is_framed(m, layout),
        budget_allowed(budget),
        true,
        true,
    )
}

// The first test of a step that fails: a step takes neither budget nor stop address, so nothing is found against them.
#[tactic(auto, using(base::proofs::Tests::choices), unfolding(base::specs::FirstFailure::first_failure))]
pub fn judge_step(
    control: Control,
    registers: &[u16; 16],
    saved: &[u16; 16],
    mem: &[u8],
    layout: Layout,
    stamps: &[u64],
    trace: Trace<'_>,
) -> Result<(), Refusal>
    ensures { result ≡ verdict (step_tests (setting_of layout stamps.now (lent_trace trace.entry)) (world (with_registers registers.now saved.now control) mem.now)) }
{
    judge_call(
        mem,
        layout,
        stamps,
        trace,
        is_framed(control, registers, saved, layout),
        true,
        true,
        clock_allowed(control.time.clock),
    )
}
