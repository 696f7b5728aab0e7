// A sheet's reading: its refusal, or how its run ends.
use answers::answer::Stopped;
use base::limits::{MEMORY_BYTES, MOST_STAMPS};
use base::refusal::SheetRefusal;
use clock::trace::Trace;
use console::print;
use definition::stop_address::StopAddress;
use loader::load::{load_memory, load_stamps};
use machine::calls::Machine;
use sheet::reader::{Setup, read_sheet};
use sheet::trace::load_setup_trace;
use std::io;
use std::io::Write;
use text::text::{head, rest};
use transcript::line::{end_line, refusal_line};

// What a sheet's run is lent: the memory, the stamps of the timetable, the stamps and the words of the trace.
#[derive(Drop)]
pub struct Room {
    pub mem: [u8; MEMORY_BYTES],
    pub stamps: [u64; MOST_STAMPS],
    pub trace_stamps: [u64; MOST_STAMPS],
    pub trace_words: [u16; MOST_STAMPS],
}

// The last line of a sheet's run, from the start of its memory, and its length: 0, no line, where the sheet has more stamps or records than there
// is room for. A sheet that was read is not refused here; if it were, line 0 would say so.
fn run_line(out: &mut [u8], setup: Setup, room: &mut Room) -> usize {
    let Some(stamps) = room.stamps.get(..setup.stamps) else {
        return 0;
    };
    let Some(trace_stamps) = room.trace_stamps.get(..setup.records) else {
        return 0;
    };
    let Some(trace_words) = room.trace_words.get(..setup.records) else {
        return 0;
    };
    let trace = Trace {
        stamps: trace_stamps,
        words: trace_words,
    };
    let started = Machine::start(&room.mem).machine;
    let ran = started.run(
        &mut room.mem,
        setup.layout,
        stamps,
        trace,
        StopAddress::Nowhere,
        setup.budget,
    );
    match ran.answer {
        Ok(Stopped { end, steps }) => end_line(out, end, steps, ran.machine.0.time.clock),
        Err(refusal) => refusal_line(out, SheetRefusal::new(refusal, 0)),
    }
}

// The last line that the bench prints for a sheet, put into what is lent; its length.
fn last_line(out: &mut [u8], text: &[u8], room: &mut Room) -> usize {
    match read_sheet(text) {
        Err(refused) => refusal_line(out, refused),
        Ok(setup) => {
            load_memory(&mut room.mem, text);
            load_stamps(&mut room.stamps, text);
            load_setup_trace(setup, &mut room.trace_stamps, &mut room.trace_words, text);
            run_line(out, setup, room)
        }
    }
}

// One sheet: its name, a tab, its last line.
fn one(out: &mut impl Write, name: &[u8], text: &[u8], room: &mut Room) -> io::Result<()> {
    let mut line = [0u8; 64];
    print::text(out, name)?;
    print::text(out, b"\t")?;
    let n = last_line(&mut line, text, room);
    if let Some(said) = line.get(..n) {
        print::text(out, said)?;
    }
    Ok(())
}

// Every sheet. By `head` and `rest`, and not by `split` and two calls of `next`: those are no plainer, and would leave out a name
// that no sheet follows.
pub fn all(out: &mut impl Write, text: &[u8], room: &mut Room) -> io::Result<()> {
    let mut left = text;
    while !left.is_empty() {
        let sheets = rest(left, b'%');
        let after = rest(sheets, b'%');
        one(out, head(left, b'%'), head(sheets, b'%'), room)?;
        left = after;
    }
    Ok(())
}
