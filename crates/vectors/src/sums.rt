// Arithmetic: source, destination, result, and the status that an empty one becomes.
use alu::arithmetic::{Computed, compute, invert};
use alu::status::set_flags;
use console::print;
use rows::row::Operation;
use std::io;
use std::io::Write;

const VALUES: [u16; 5] = [0x0000, 0x0001, 0x7fff, 0x8000, 0xffff];

const OPERATIONS: [Operation; 4] = [
    Operation::Add,
    Operation::Sub,
    Operation::Cmp,
    Operation::And,
];

// Its word. Bytes and no `Display`: the operation is another crate's, and what prints fields takes bytes.
fn name(o: Operation) -> &'static [u8] {
    match o {
        Operation::Add => b"ADD",
        Operation::Sub => b"SUB",
        Operation::Cmp => b"CMP",
        Operation::And => b"AND",
    }
}

fn show_result(out: &mut impl Write, c: Computed) -> io::Result<()> {
    print::space_word(out, c.result)?;
    print::space_word(out, set_flags(0, c))?;
    print::end_line(out)
}

fn show(out: &mut impl Write, o: Operation, s: u16, d: u16) -> io::Result<()> {
    print::text(out, name(o))?;
    print::space_word(out, s)?;
    print::space_word(out, d)?;
    show_result(out, compute(o, s, d))
}

fn with_source(out: &mut impl Write, o: Operation, s: u16) -> io::Result<()> {
    for d in VALUES {
        show(out, o, s, d)?;
    }
    Ok(())
}

fn each(out: &mut impl Write, o: Operation) -> io::Result<()> {
    for s in VALUES {
        with_source(out, o, s)?;
    }
    Ok(())
}

pub fn all(out: &mut impl Write) -> io::Result<()> {
    for o in OPERATIONS {
        each(out, o)?;
    }
    Ok(())
}

fn show_inverted(out: &mut impl Write, d: u16) -> io::Result<()> {
    print::text(out, b"NOT")?;
    print::space_word(out, d)?;
    show_result(out, invert(d))
}

pub fn inverted(out: &mut impl Write) -> io::Result<()> {
    for d in VALUES {
        show_inverted(out, d)?;
    }
    Ok(())
}
