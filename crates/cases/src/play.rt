// The script, line by line.
use crate::call;
use console::print;
use layout::sections::Layout;
use script::command::Command;
use script::line;
use script::world::World;
use std::io;
use std::io::Write;

// A question mark where a list had no room for more.
fn show_put(out: &mut impl Write, done: Option<()>) -> io::Result<()> {
    match done {
        Some(()) => Ok(()),
        None => print::unknown(out),
    }
}

// A command obeyed. What may fail is returned as it comes: each `?` would set room for a failure aside on every line, whatever its letter.
fn obey(out: &mut impl Write, w: &mut World, command: Command<'_>) -> io::Result<()> {
    match command {
        Command::NewWorld => w.clear(),
        Command::Layout(addresses) => w.layout = Layout::from(addresses),
        Command::Words { address, words } => w.put_words(address, words),
        Command::Bytes(n) => w.bytes = n,
        Command::Stamps(stamps) => return show_put(out, w.stamps.put(stamps)),
        Command::StampRow(row) => return show_put(out, w.stamps.put_row(row)),
        Command::NoStamps => w.stamps.clear(),
        Command::TraceStamps(stamps) => return show_put(out, w.trace_stamps.put(stamps)),
        Command::TraceStampRow(row) => return show_put(out, w.trace_stamps.put_row(row)),
        Command::TraceWords(words) => return show_put(out, w.trace_words.put(words)),
        Command::TraceWordRow(row) => return show_put(out, w.trace_words.put_row(row)),
        Command::NoTrace => w.clear_trace(),
        Command::Overwrite(part) => w.overwrite(part),
        Command::Start => return call::start(out, w),
        Command::Step => return call::step(out, w),
        Command::Run { stop, budget } => return call::run(out, w, stop, budget),
    }
    Ok(())
}

// One line: repeated, obeyed, or answered by a question mark.
fn one_line(out: &mut impl Write, w: &mut World, text: &[u8]) -> io::Result<()> {
    if line::is_comment(text) {
        print::text(out, text)?;
        return print::end_line(out);
    }
    let Some(line) = line::read(text) else {
        return print::unknown(out);
    };
    match Command::parse(&line) {
        Some(command) => obey(out, w, command),
        None => print::unknown(out),
    }
}

// Every line, in a new world.
pub fn play(out: &mut impl Write, text: &[u8]) -> io::Result<()> {
    let mut w = World::new();
    for ended in text.split_inclusive(|b| *b == b'\n') {
        one_line(out, &mut w, ended.strip_suffix(b"\n").unwrap_or(ended))?;
    }
    Ok(())
}
