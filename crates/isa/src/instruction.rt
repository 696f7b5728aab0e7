// The instructions of document 01. Registers are numbers; those above 15 stand for nothing and are refused in writing.
use rows::row::Operation;

// What MOV moves: a register, the word that a register points at, a constant.
#[derive(Clone, Copy, PartialEq, Eq, Debug)]
pub enum Operand {
    Register(u8),
    Pointed(u8),
    Constant(u16),
}

// An instruction with its source and then its destination.
#[derive(Clone, Copy, PartialEq, Eq, Debug)]
pub enum Instruction {
    Hlt,
    In(u8),
    Out(u8),
    Jz(u8),
    Reti,
    Nop,
    Jmp(u8),
    Mov(Operand, u8),
    Store(u8, u8),
    Compute(Operation, u8, u8),
    Not(u8),
}
