// Instruction words: read, with what is written back.
use base::refusal::Refusal;
use base::word::sum;
use console::print;
use isa::instruction::{Instruction, Operand};
use rows::read::Begun;
use rows::row::{Encoding, Operation};
use rows::write::Words;
use std::io;
use std::io::Write;

// The rows' edges.
const EDGES: [u16; 26] = [
    0x0000, 0x0010, 0x0020, 0x0030, 0x0040, 0x1300, 0x4000, 0x4020, 0x4030, 0x4080, 0x4120, 0x4303,
    0x4520, 0x4580, 0x4f00, 0x4fff, 0x5000, 0x50f0, 0x5f0f, 0x8000, 0x9000, 0xe030, 0xe040, 0xf000,
    0xff0f, 0xffff,
];

const SECONDS: [u16; 4] = [0x0000, 0xffff, 0xfffe, 0x0001];

// An instruction's kind, source, destination and constant, each 0 where it has none.
fn show_parts(out: &mut impl Write, i: Instruction) -> io::Result<()> {
    let e = Encoding::from(i);
    print::space_decimal(out, i.kind() as u64)?;
    print::space_decimal(out, u64::from(e.source))?;
    print::space_decimal(out, u64::from(e.destination))?;
    print::space_word(out, e.word)
}

fn show_written(out: &mut impl Write, written: Result<Words, Refusal>) -> io::Result<()> {
    match written {
        Ok(Words::One(first)) => print::space_word(out, first),
        Ok(Words::Two(first, second)) => {
            print::space_word(out, first)?;
            print::space_word(out, second)
        }
        Err(r) => print::refusal(out, u8::from(r)),
    }
}

// Two words, and the instruction with its length, its cycles and the words that it is written as, or E and the number.
fn show_read(out: &mut impl Write, first: u16, second: u16) -> io::Result<()> {
    print::word(out, first)?;
    print::space_word(out, second)?;
    match Instruction::read(first, second) {
        Ok(decoded) => {
            show_parts(out, decoded.instruction)?;
            print::space_decimal(out, u64::from(decoded.length))?;
            print::space_decimal(out, u64::from(decoded.instruction.cycles()))?;
            show_written(out, decoded.instruction.write())?;
        }
        Err(r) => print::refusal(out, u8::from(r))?,
    }
    print::end_line(out)
}

// The 32 words around one edge, each with another second word.
fn around(out: &mut impl Write, edge: u16) -> io::Result<()> {
    let seconds = SECONDS.iter().cycle();
    for (k, second) in (0u16..32).zip(seconds) {
        show_read(out, sum(sum(edge, 0xfff0), k), *second)?;
    }
    Ok(())
}

pub fn around_edges(out: &mut impl Write) -> io::Result<()> {
    for edge in EDGES {
        around(out, edge)?;
    }
    Ok(())
}

// First words of two-word instructions with a right and a wrong second word.
pub fn second_words(out: &mut impl Write) -> io::Result<()> {
    for second in [0x0000, 0xffff] {
        for first in [0x4585, 0xe035, 0x4035] {
            show_read(out, first, second)?;
        }
    }
    Ok(())
}

fn show_write(out: &mut impl Write, i: Instruction) -> io::Result<()> {
    print::text(out, b"W")?;
    show_parts(out, i)?;
    show_written(out, i.write())?;
    print::end_line(out)
}

// Instructions that no words stand for, each beside a neighbour that has words.
const NEIGHBOURS: [Instruction; 25] = [
    Instruction::In(15),
    Instruction::In(16),
    Instruction::Out(255),
    Instruction::Jz(16),
    Instruction::Jmp(16),
    Instruction::Mov(Operand::Register(3), 3),
    Instruction::Mov(Operand::Register(3), 4),
    Instruction::Mov(Operand::Register(5), 0),
    Instruction::Mov(Operand::Register(16), 5),
    Instruction::Mov(Operand::Pointed(0), 5),
    Instruction::Mov(Operand::Pointed(1), 5),
    Instruction::Mov(Operand::Pointed(2), 5),
    Instruction::Mov(Operand::Pointed(3), 5),
    Instruction::Mov(Operand::Constant(0x1234), 0),
    Instruction::Mov(Operand::Constant(0x1234), 16),
    Instruction::Store(5, 0),
    Instruction::Store(0, 1),
    Instruction::Store(5, 2),
    Instruction::Store(5, 3),
    Instruction::Store(16, 4),
    Instruction::Compute(Operation::Add, 15, 15),
    Instruction::Compute(Operation::Sub, 16, 15),
    Instruction::Compute(Operation::And, 15, 255),
    Instruction::Not(15),
    Instruction::Not(16),
];

pub fn written(out: &mut impl Write) -> io::Result<()> {
    for i in NEIGHBOURS {
        show_write(out, i)?;
    }
    Ok(())
}

// How many first words begin an instruction of one word, and how many one of two.
pub fn counted(out: &mut impl Write) -> io::Result<()> {
    let mut one = 0;
    let mut two = 0;
    for first in 0u16..=0xffff {
        match Begun::begin(first) {
            Some(begun) if begun.two_words() => two = sum(two, 1),
            Some(_) => one = sum(one, 1),
            None => {}
        }
    }
    print::text(out, b"N")?;
    print::space_decimal(out, u64::from(one))?;
    print::space_decimal(out, u64::from(two))?;
    print::end_line(out)
}
