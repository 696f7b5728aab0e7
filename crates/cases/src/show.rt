// The state of the machine on a line.
use console::print;
use definition::state::SavedContext;
use script::memory;
use script::world::World;
use std::io;
use std::io::Write;

// Sixteen words.
fn registers(out: &mut impl Write, words: [u16; 16]) -> io::Result<()> {
    for w in words {
        print::space_word(out, w)?;
    }
    Ok(())
}

// A clock value, or none: printed as the other fields are, and by no `Display` of an option, which is the library's.
fn stamp(out: &mut impl Write, s: Option<u64>) -> io::Result<()> {
    match s {
        None => print::text(out, b" none"),
        Some(n) => print::space_decimal(out, n),
    }
}

// A held visit has its previous address, its age, its registers. The saved copy means nothing where none is held.
fn context(out: &mut impl Write, v: Option<SavedContext>, saved: [u16; 16]) -> io::Result<()> {
    match v {
        None => print::text(out, b" free"),
        Some(SavedContext { previous, age }) => {
            print::text(out, b" held")?;
            print::space_word(out, previous)?;
            print::space_decimal(out, u64::from(age))?;
            registers(out, saved)
        }
    }
}

// The end of the line: the sums of all bytes.
pub fn sums(out: &mut impl Write, mem: &[u8]) -> io::Result<()> {
    let sums = memory::sums(mem);
    print::text(out, b" sums")?;
    print::space_hex(out, sums.bytes)?;
    print::space_hex(out, sums.places)?;
    print::end_line(out)
}

// The rest of the line: the state and the memory's sums.
pub fn state(out: &mut impl Write, w: &World) -> io::Result<()> {
    let state = w.state;
    let time = state.time;
    print::text(out, b" clock")?;
    print::space_decimal(out, time.clock)?;
    print::text(out, b" registers")?;
    registers(out, state.registers)?;
    print::text(out, b" previous")?;
    print::space_word(out, state.previous)?;
    print::text(out, b" slot")?;
    stamp(out, time.slot)?;
    print::text(out, b" alarm")?;
    stamp(out, time.alarm)?;
    context(out, state.context, state.saved)?;
    if state.halted {
        print::text(out, b" halted")?;
    }
    sums(out, &w.memory)
}
