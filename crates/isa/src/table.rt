// The constant tables of cycles and lengths, by kind.
ghost use Rattle.std.specs.Prelude.{◌≡◌};
ghost use Rattle.isa.specs.Cycles.{kind_of, cycles_of, length_of};

use crate::instruction::{Instruction, Operand};

// The kinds of instructions, in the order of the tables. No `Row`: that carries its operation, and so is no index of a table.
#[derive(Clone, Copy, PartialEq, Eq, Debug)]
pub enum Kind {
    Hlt,
    In,
    Out,
    Jz,
    Reti,
    Nop,
    Jmp,
    Mov,
    Load,
    Store,
    Immediate,
    Compute,
    Not,
}

// 003's Table 1, by kind: constant tables, the form that document 01 asks for.
const CYCLES: [u8; 13] = [1, 2, 2, 2, 5, 1, 2, 1, 2, 4, 2, 1, 2];

const LENGTHS: [u8; 13] = [1, 1, 1, 1, 1, 1, 1, 1, 1, 2, 2, 1, 2];

impl Instruction {
    // The kind of an instruction.
    pub fn kind(self) -> Kind
        ensures { result ≡ kind_of self }
    {
        match self {
            Instruction::Hlt => Kind::Hlt,
            Instruction::In(_) => Kind::In,
            Instruction::Out(_) => Kind::Out,
            Instruction::Jz(_) => Kind::Jz,
            Instruction::Reti => Kind::Reti,
            Instruction::Nop => Kind::Nop,
            Instruction::Jmp(_) => Kind::Jmp,
            Instruction::Mov(Operand::Register(_), _) => Kind::Mov,
            Instruction::Mov(Operand::Pointed(_), _) => Kind::Load,
            Instruction::Mov(Operand::Constant(_), _) => Kind::Immediate,
            Instruction::Store(_, _) => Kind::Store,
            Instruction::Compute(_, _, _) => Kind::Compute,
            Instruction::Not(_) => Kind::Not,
        }
    }

    // How many cycles the instruction takes.
    pub fn cycles(self) -> u8
        ensures { result ≡ cycles_of self }
    {
        CYCLES[self.kind() as usize]
    }

    // How many words stand for the instruction.
    pub fn length(self) -> u8
        ensures { result ≡ length_of self }
    {
        LENGTHS[self.kind() as usize]
    }
}
