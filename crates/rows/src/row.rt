// The rows of the table of instruction words, their second words, and an instruction as the table has it.
ghost use Rattle.std.specs.Prelude.{◌≡◌};
ghost use Rattle.rows.specs.Table.{has_second, second_fits, format_of};

// What ADD, SUB, CMP and AND do.
#[derive(Clone, Copy, PartialEq, Eq, Debug)]
pub enum Operation {
    Add,
    Sub,
    Cmp,
    And,
}

// A row of the table of instruction words.
#[derive(Clone, Copy, PartialEq, Eq, Debug)]
pub enum Row {
    Hlt,
    In,
    Out,
    Jz,
    Reti,
    Nop,
    Jmp,
    Mov,
    Load,
    Store,
    Immediate,
    Compute(Operation),
    Not,
}

// What the second word of a row is: there is none, it is this one, it is any.
#[derive(Clone, Copy, PartialEq, Eq, Debug)]
pub enum Second {
    Nothing,
    Exactly(u16),
    Anything,
}

impl Second {
    // There is one.
    pub fn is_there(self) -> bool
        ensures { result ≡ has_second self }
    {
        self != Second::Nothing
    }

    // The word may be the second.
    pub fn fits(self, word: u16) -> bool
        ensures { result ≡ second_fits self word }
    {
        match self {
            Second::Exactly(w) => word == w,
            Second::Nothing | Second::Anything => true,
        }
    }
}

// An instruction as the table has it: its row, its register digits and its second word, each 0 where the row has none: the row tells
// which it has, so that an Option in each would say it again.
#[derive(Clone, Copy, PartialEq, Eq, Debug)]
pub struct Encoding {
    pub row: Row,
    pub source: u8,
    pub destination: u8,
    pub word: u16,
}

impl Row {
    // The row's second word.
    pub fn second(self) -> Second
        ensures { result ≡ (format_of self).second }
    {
        match self {
            Row::Store => Second::Exactly(0x0000),
            Row::Immediate => Second::Anything,
            Row::Not => Second::Exactly(0xffff),
            _ => Second::Nothing,
        }
    }
}
