// Writing an encoding as its words.
ghost use Rattle.std.specs.Prelude.{◌≡◌, ◌<◌, ◌≤◌};
ghost use Rattle.rows.specs.Table.{operation_word, format_of, movable, first_word};
ghost use Rattle.rows.specs.Words.{encodable, words_of, written};

use crate::read::is_pointer;
use crate::row::{Encoding, Operation, Row, Second};
use base::refusal::Refusal;

// Exactly an instruction's words.
#[derive(Clone, Copy, PartialEq, Eq, Debug)]
pub enum Words {
    One(u16),
    Two(u16, u16),
}

// MOV s d: d not 0, not both 3.
#[tactic(auto, unfolding(base::specs::Test::all))]
fn is_movable(s: u8, d: u8) -> bool
    ensures { result ≡ movable s d }
{
    d != 0 && !(s == 3 && d == 3)
}

// The row takes the registers.
fn takes_registers(row: Row, s: u8, d: u8) -> bool
    ensures { result ≡ (format_of row).takes s d }
{
    match row {
        Row::Mov => is_movable(s, d),
        Row::Load => is_pointer(s),
        Row::Store => is_pointer(d),
        _ => true,
    }
}

// There are words for the encoding.
#[tactic(auto, unfolding(crate::specs::Words::encodable, base::specs::Test::all))]
fn is_encodable(e: Encoding) -> bool
    ensures { result ≡ encodable e }
{
    e.source < 16 && e.destination < 16 && takes_registers(e.row, e.source, e.destination)
}

// The row's first word with the registers s and d.
#[tactic(auto, unfolding(crate::specs::Table::first_word))]
fn first_word(row: Row, s: u16, d: u16) -> u16
    requires { (s < 16) × (d < 16) }
    ensures { result ≡ first_word row s d }
{
    match row {
        Row::Hlt => 0x0001,
        Row::In => 0x0010 + d,
        Row::Out => 0x0020 + s,
        Row::Jz => 0x0030 + s,
        Row::Reti => 0x1300,
        Row::Nop => 0x4303,
        Row::Jmp => 0x4000 + s * 256,
        Row::Mov => 0x4000 + s * 256 + d,
        Row::Load => 0x4020 + s * 256 + d,
        Row::Store => 0x4080 + s * 256 + d,
        Row::Immediate => 0x4030 + d,
        Row::Compute(o) => operation_word(o) + s * 256 + d,
        Row::Not => 0xe030 + d,
    }
}

// The first word of ADD, SUB, CMP or AND with registers 0.
fn operation_word(o: Operation) -> u16
    ensures { (result ≡ operation_word o) × (result ≤ 0xF000) }
{
    match o {
        Operation::Add => 0x5000,
        Operation::Sub => 0x8000,
        Operation::Cmp => 0x9000,
        Operation::And => 0xf000,
    }
}

// Exactly the words: the first, and the second where there is one.
fn words_of(second: Second, first: u16, word: u16) -> Words
    ensures { result ≡ words_of second first word }
{
    match second {
        Second::Nothing => Words::One(first),
        Second::Exactly(u) => Words::Two(first, u),
        Second::Anything => Words::Two(first, word),
    }
}

impl Encoding {
    // The words of an encoding, or refusal 9.
    #[tactic(auto, unfolding(crate::specs::Words::written, crate::specs::Words::encodable, base::specs::Test::all))]
    pub fn write(self) -> Result<Words, Refusal>
        ensures { result ≡ written self }
    {
        if !is_encodable(self) {
            return Err(Refusal::Word);
        }
        let first = first_word(self.row, self.source.into(), self.destination.into());
        Ok(words_of(self.row.second(), first, self.word))
    }
}
