// The row of the table that an instruction has, and the instruction that a row has.
ghost use Rattle.std.specs.Prelude.{◌≡◌};
ghost use Rattle.isa.specs.Encoding.{encoding_of, instruction_of};

use crate::instruction::{Instruction, Operand};
use rows::row::{Encoding, Row};

// The row, the registers and the constant of an instruction, each 0 where it has none.
impl From<Instruction> for Encoding {
    ghost from_gives = { λ i e. e ≡ encoding_of i };

    fn from(i: Instruction) -> Encoding {
        let (row, source, destination, word) = match i {
            Instruction::Hlt => (Row::Hlt, 0, 0, 0),
            Instruction::In(d) => (Row::In, 0, d, 0),
            Instruction::Out(s) => (Row::Out, s, 0, 0),
            Instruction::Jz(s) => (Row::Jz, s, 0, 0),
            Instruction::Reti => (Row::Reti, 0, 0, 0),
            Instruction::Nop => (Row::Nop, 0, 0, 0),
            Instruction::Jmp(s) => (Row::Jmp, s, 0, 0),
            Instruction::Mov(Operand::Register(s), d) => (Row::Mov, s, d, 0),
            Instruction::Mov(Operand::Pointed(s), d) => (Row::Load, s, d, 0),
            Instruction::Mov(Operand::Constant(w), d) => (Row::Immediate, 0, d, w),
            Instruction::Store(s, d) => (Row::Store, s, d, 0),
            Instruction::Compute(o, s, d) => (Row::Compute(o), s, d, 0),
            Instruction::Not(d) => (Row::Not, 0, d, 0),
        };
        Encoding {
            row,
            source,
            destination,
            word,
        }
    }
}

// The instruction that a row has for its registers and its second word.
impl From<Encoding> for Instruction {
    ghost from_gives = { λ e i. i ≡ instruction_of e.row e.source e.destination e.word };

    fn from(e: Encoding) -> Instruction {
        let s = e.source;
        let d = e.destination;
        match e.row {
            Row::Hlt => Instruction::Hlt,
            Row::In => Instruction::In(d),
            Row::Out => Instruction::Out(s),
            Row::Jz => Instruction::Jz(s),
            Row::Reti => Instruction::Reti,
            Row::Nop => Instruction::Nop,
            Row::Jmp => Instruction::Jmp(s),
            Row::Mov => Instruction::Mov(Operand::Register(s), d),
            Row::Load => Instruction::Mov(Operand::Pointed(s), d),
            Row::Store => Instruction::Store(s, d),
            Row::Immediate => Instruction::Mov(Operand::Constant(e.word), d),
            Row::Compute(o) => Instruction::Compute(o, s, d),
            Row::Not => Instruction::Not(d),
        }
    }
}
