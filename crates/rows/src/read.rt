// Reading a first word: the row that has it.
ghost use Rattle.std.specs.Prelude.{◌≡◌};
ghost use Rattle.rows.specs.Table.{pointer, s_digit, d_digit};
ghost use Rattle.rows.specs.Words.{begun, two_words};
ghost use Rattle.rows.specs.internal.Dispatch.{register_move, row_by_digits, row_of};

use crate::row::{Operation, Row};

// What a first word begins: the row that has it, with its source and destination registers.
#[derive(Clone, Copy, PartialEq, Eq, Debug)]
pub struct Begun {
    pub row: Row,
    pub source: u8,
    pub destination: u8,
}

// A register that may hold an address: not 0, 2, 3. Most are above 3, so this is asked first.
#[tactic(auto, using(base::proofs::Tests::choices), unfolding(crate::specs::Table::pointer, base::specs::Test::all))]
pub fn is_pointer(n: u8) -> bool
    ensures { result ≡ pointer n }
{
    3 < n || n == 1
}

// 4s0d: MOV between registers, JMP, NOP.
#[inline(always)]
#[tactic(auto, unfolding(crate::specs::internal::Dispatch::register_move, base::specs::Test::all))]
fn register_move(s: u8, d: u8) -> Row
    ensures { result ≡ register_move s d }
{
    if 3 < d {
        return Row::Mov;
    }
    match d {
        0 => Row::Jmp,
        3 if s == 3 => Row::Nop,
        _ => Row::Mov,
    }
}

// The rows that are neither register moves nor immediates, by the first and the third digit, and then by the second and the last.
#[inline(always)]
#[tactic(auto, unfolding(crate::specs::internal::Dispatch::row_by_digits, base::specs::Test::all))]
fn row_by_digits(first_and_third: u16, s: u8, d: u8) -> Option<Row>
    ensures { result ≡ row_by_digits first_and_third s d }
{
    match first_and_third {
        0x4020 if is_pointer(s) => Some(Row::Load),
        0x4080 if is_pointer(d) => Some(Row::Store),
        0x5000 => Some(Row::Compute(Operation::Add)),
        0x8000 => Some(Row::Compute(Operation::Sub)),
        0x9000 => Some(Row::Compute(Operation::Cmp)),
        0xf000 => Some(Row::Compute(Operation::And)),
        0x0030 if s == 0 => Some(Row::Jz),
        0xe030 if s == 0 => Some(Row::Not),
        0x0010 if s == 0 => Some(Row::In),
        0x0020 if s == 0 => Some(Row::Out),
        0x1000 if s == 3 && d == 0 => Some(Row::Reti),
        0x0000 if s == 0 && d == 1 => Some(Row::Hlt),
        _ => None,
    }
}

// The row that the word is in, if it is in one. Register moves and immediates, which most words are, come first.
#[inline(always)]
#[tactic(auto, using(base::proofs::Tests::choices), unfolding(crate::specs::internal::Dispatch::row_of))]
fn row_of(first: u16) -> Option<Row>
    ensures { result ≡ row_of first }
{
    let first_and_third = first / 4096 * 4096 + first / 16 % 16 * 16;
    let s = (first / 256 % 16) as u8;
    let d = (first % 16) as u8;
    if first_and_third == 0x4000 {
        return Some(register_move(s, d));
    }
    // A test of its own and no arm of the match: the compiler tests a match's arms in an order of its own.
    if first / 16 == 0x403 {
        return Some(Row::Immediate);
    }
    row_by_digits(first_and_third, s, d)
}

impl Row {
    // The digit s of a first word in the row.
    fn source(self, first: u16) -> u8
        ensures { result ≡ s_digit self first }
    {
        match self {
            Row::Out | Row::Jz => (first % 16) as u8,
            Row::Jmp | Row::Mov | Row::Load | Row::Store | Row::Compute(_) => {
                (first / 256 % 16) as u8
            }
            Row::Hlt | Row::In | Row::Reti | Row::Nop | Row::Immediate | Row::Not => 0,
        }
    }

    // The digit d of a first word in the row.
    fn destination(self, first: u16) -> u8
        ensures { result ≡ d_digit self first }
    {
        match self {
            Row::In
            | Row::Mov
            | Row::Load
            | Row::Store
            | Row::Immediate
            | Row::Compute(_)
            | Row::Not => (first % 16) as u8,
            Row::Hlt | Row::Out | Row::Jz | Row::Reti | Row::Nop | Row::Jmp => 0,
        }
    }

    // What a first word in the row begins.
    fn begun(self, first: u16) -> Begun
        ensures { result ≡ record { row = self; source = s_digit self first; destination = d_digit self first } }
    {
        Begun {
            row: self,
            source: self.source(first),
            destination: self.destination(first),
        }
    }
}

impl Begun {
    // What the first word begins. Compiled into its callers: through memory its answer would be waited for (docs/PERFORMANCE.md).
    #[inline(always)]
    #[tactic(auto, using(crate::proofs::Rows::some_begun, crate::proofs::Rows::none_begun))]
    pub fn begin(first: u16) -> Option<Begun>
        ensures { result ≡ begun first }
    {
        match row_of(first) {
            Some(row) => Some(row.begun(first)),
            None => None,
        }
    }

    // The instruction begun has a second word.
    #[tactic(auto, unfolding(crate::specs::Words::two_words))]
    pub fn two_words(self) -> bool
        ensures { result ≡ two_words (Some self) }
    {
        self.row.second().is_there()
    }
}
