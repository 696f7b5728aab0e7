// Reading and writing one instruction, as four numbers: its row in the table of instruction words, source, destination, constant.
ghost use Rattle.std.specs.Prelude.{◌≡◌};
ghost use Rattle.rows.specs.Words.{writing_refusal};
ghost use Rattle.isa.specs.Words.{reading, reading_refusal};
ghost use Rattle.lentwords.specs.Fields.{writing_of};
ghost use Rattle.base.specs.Kept.{unless_refused};
ghost use Rattle.lentwords.specs.Instruction.{read_fields, read_length, written_first, written_second, written_length};

use crate::fields::{fields_of, write_fields};
use isa::instruction::Instruction;
use rows::write::Words;

// The instruction that two words begin with and its length in words, or refusal 9. The C interface has numbers: what is lent, and an answer.
#[tactic(auto, using(base::proofs::Refusals::number_not_zero), unfolding(base::specs::Kept::unless_refused, base::specs::Test::all))]
pub fn read_lent(first: u16, second: u16, fields: &mut [u16; 4], length: &mut u8) -> u8
    ensures number { result ≡ reading_refusal (reading first second) }
    ensures fields { fields.new ≡ unless_refused result (read_fields (reading first second)) fields.old }
    ensures length { length.new ≡ unless_refused result (read_length (reading first second)) length.old }
{
    match Instruction::read(first, second) {
        Err(refusal) => u8::from(refusal),
        Ok(decoded) => {
            *fields = fields_of(decoded.instruction);
            *length = decoded.length;
            0
        }
    }
}

// Exactly the words of an instruction and how many they are, or refusal 9. The second word is left alone where there is none. The C interface has
// numbers: what is lent, and an answer.
#[tactic(auto, using(base::proofs::Refusals::number_not_zero), unfolding(base::specs::Kept::unless_refused, base::specs::Test::all))]
pub fn write_lent(fields: &[u16; 4], first: &mut u16, second: &mut u16, length: &mut u8) -> u8
    ensures number { result ≡ writing_refusal (writing_of fields.now) }
    ensures first { first.new ≡ unless_refused result (written_first (writing_of fields.now)) first.old }
    ensures second { second.new ≡ unless_refused result (written_second (writing_of fields.now) second.old) second.old }
    ensures length { length.new ≡ unless_refused result (written_length (writing_of fields.now)) length.old }
{
    match write_fields(*fields) {
        Err(refusal) => u8::from(refusal),
        Ok(Words::One(w)) => {
            *first = w;
            *length = 1;
            0
        }
        Ok(Words::Two(w, v)) => {
            *first = w;
            *second = v;
            *length = 2;
            0
        }
    }
}
