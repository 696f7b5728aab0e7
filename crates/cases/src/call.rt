// The calls, each with its line of output.
use crate::show;
use answers::answer::{Outcome, Stopped};
use base::refusal::Refusal;
use clock::trace::Trace;
use console::print;
use definition::stop_address::StopAddress;
use machine::calls::Machine;
use script::world::World;
use std::io;
use std::io::Write;

// The kind, and for a reset the number of its cause.
fn show_outcome(out: &mut impl Write, o: Outcome) -> io::Result<()> {
    print::space_letter(out, o.letter())?;
    if let Outcome::Reset(cause) = o {
        print::space_decimal(out, u64::from(u8::from(cause)))?;
    }
    Ok(())
}

// The answer of a step.
fn show_step(out: &mut impl Write, a: Result<Outcome, Refusal>) -> io::Result<()> {
    print::text(out, b"T")?;
    match a {
        Ok(outcome) => show_outcome(out, outcome),
        Err(r) => print::refusal(out, u8::from(r)),
    }
}

// The answer of a run: its end and its steps.
fn show_run(out: &mut impl Write, a: Result<Stopped, Refusal>) -> io::Result<()> {
    print::text(out, b"G")?;
    match a {
        Ok(Stopped { end, steps }) => {
            print::space_letter(out, end.letter())?;
            print::space_decimal(out, steps)
        }
        Err(r) => print::refusal(out, u8::from(r)),
    }
}

// The trace of stamps and words that are lent.
fn trace_of<'a>(stamps: Option<&'a [u64]>, words: Option<&'a [u16]>) -> Option<Trace<'a>> {
    Some(Trace {
        stamps: stamps?,
        words: words?,
    })
}

// Start: where it is refused, only the answer and the sums are shown, and the machine stays as it was.
pub fn start(out: &mut impl Write, w: &mut World) -> io::Result<()> {
    let Some(mem) = w.memory.get(..w.bytes) else {
        return print::unknown(out);
    };
    let started = Machine::start(mem);
    print::text(out, b"S")?;
    match started.answer {
        Ok(()) => {
            w.state = started.machine.0;
            print::text(out, b" ok")?;
            show::state(out, w)
        }
        Err(r) => {
            print::refusal(out, u8::from(r))?;
            show::sums(out, &w.memory)
        }
    }
}

// Step. What is lent is borrowed here and in `run`: a method of `World` that lends both parts was tried, and its proof was not found.
pub fn step(out: &mut impl Write, w: &mut World) -> io::Result<()> {
    let Some(mem) = w.memory.get_mut(..w.bytes) else {
        return print::unknown(out);
    };
    let Some(stamps) = w.stamps.numbers() else {
        return print::unknown(out);
    };
    let words = w.trace_words.words();
    let Some(trace) = trace_of(w.trace_stamps.numbers(), words.get(..w.trace_words.len())) else {
        return print::unknown(out);
    };
    let stepped = Machine(w.state).step(mem, w.layout, stamps, trace);
    w.state = stepped.machine.0;
    show_step(out, stepped.answer)?;
    show::state(out, w)
}

// Run with a stop address or none, and a budget.
pub fn run(out: &mut impl Write, w: &mut World, stop: StopAddress, budget: u64) -> io::Result<()> {
    let Some(mem) = w.memory.get_mut(..w.bytes) else {
        return print::unknown(out);
    };
    let Some(stamps) = w.stamps.numbers() else {
        return print::unknown(out);
    };
    let words = w.trace_words.words();
    let Some(trace) = trace_of(w.trace_stamps.numbers(), words.get(..w.trace_words.len())) else {
        return print::unknown(out);
    };
    let ran = Machine(w.state).run(mem, w.layout, stamps, trace, stop, budget);
    w.state = ran.machine.0;
    show_run(out, ran.answer)?;
    show::state(out, w)
}
