// One instruction as four numbers: its row in the table of instruction words, source, destination, constant.
ghost use Rattle.std.specs.Prelude.{◌≡◌};
ghost use Rattle.lentwords.specs.Fields.{row_at, row_index, fields_of, writing_of};

use base::refusal::Refusal;
use base::word::byte_of;
use isa::instruction::Instruction;
use rows::row::{Encoding, Operation, Row};
use rows::write::Words;

// The rows in document 01's order.
const ROWS: [Row; 16] = [
    Row::Hlt,
    Row::In,
    Row::Out,
    Row::Jz,
    Row::Reti,
    Row::Nop,
    Row::Jmp,
    Row::Mov,
    Row::Load,
    Row::Store,
    Row::Immediate,
    Row::Compute(Operation::Add),
    Row::Compute(Operation::Sub),
    Row::Compute(Operation::Cmp),
    Row::Compute(Operation::And),
    Row::Not,
];

// The row at an index of the table, from 0.
#[tactic(auto, using(crate::proofs::RowLaws::copied_row))]
fn row_at(n: u16) -> Option<Row>
    ensures { result ≡ row_at n }
{
    ROWS.get(usize::from(n)).copied()
}

// The index of a row: a number of the C interface, of which the crate of `Row` knows nothing, so it is no `From`. A match, as the definition has
// it: a search of `ROWS` would have to say what it answers where it finds none.
fn row_index(row: Row) -> u16
    ensures { result ≡ row_index row }
{
    match row {
        Row::Hlt => 0,
        Row::In => 1,
        Row::Out => 2,
        Row::Jz => 3,
        Row::Reti => 4,
        Row::Nop => 5,
        Row::Jmp => 6,
        Row::Mov => 7,
        Row::Load => 8,
        Row::Store => 9,
        Row::Immediate => 10,
        Row::Compute(Operation::Add) => 11,
        Row::Compute(Operation::Sub) => 12,
        Row::Compute(Operation::Cmp) => 13,
        Row::Compute(Operation::And) => 14,
        Row::Not => 15,
    }
}

// The four numbers of an instruction, for the C interface.
#[tactic(auto, unfolding(crate::specs::Fields::fields_of))]
pub fn fields_of(i: Instruction) -> [u16; 4]
    ensures { result ≡ fields_of i }
{
    let e = Encoding::from(i);
    [
        row_index(e.row),
        u16::from(e.source),
        u16::from(e.destination),
        e.word,
    ]
}

// The words of four numbers of the C interface, or refusal 9.
#[tactic(auto, unfolding(crate::specs::Fields::writing_of))]
pub fn write_fields(fields: [u16; 4]) -> Result<Words, Refusal>
    ensures { result ≡ writing_of fields }
{
    let row = row_at(fields[0]).ok_or(Refusal::Word)?;
    let encoding = Encoding {
        row,
        source: byte_of(fields[1]),
        destination: byte_of(fields[2]),
        word: fields[3],
    };
    Instruction::from(encoding).write()
}
