// Reading an instruction from its words.
ghost use Rattle.std.specs.Prelude.{◌≡◌};
ghost use Rattle.base.specs.Test.{when◌then◌else◌};
ghost use Rattle.rows.specs.Words.{begun, decodes};
ghost use Rattle.isa.specs.Words.{finished, reading, reading_refusal};

use crate::instruction::Instruction;
use base::refusal::Refusal;
use rows::read::Begun;
use rows::row::Encoding;

// An instruction that was read, and its length in words.
#[derive(Clone, Copy, PartialEq, Eq, Debug)]
pub struct Decoded {
    pub instruction: Instruction,
    pub length: u8,
}

impl Decoded {
    // The instruction begun, with the second word, or refusal 9.
    #[tactic(auto, unfolding(crate::specs::Words::finished, base::specs::Test::all))]
    pub fn finish(begun: Option<Begun>, second: u16) -> Result<Decoded, Refusal>
        ensures { result ≡ finished begun second }
    {
        let Begun {
            row,
            source,
            destination,
        } = begun.ok_or(Refusal::Word)?;
        if !row.second().fits(second) {
            return Err(Refusal::Word);
        }
        let instruction = Instruction::from(Encoding {
            row,
            source,
            destination,
            word: second,
        });
        Ok(Decoded {
            instruction,
            length: instruction.length(),
        })
    }
}

impl Instruction {
    // The instruction that two words begin with and its length in words, or refusal 9.
    #[tactic(auto, using(crate::proofs::Words::reading_number), unfolding(crate::specs::Words::reading))]
    pub fn read(first: u16, second: u16) -> Result<Decoded, Refusal>
        ensures answer { result ≡ reading first second }
        ensures number { reading_refusal result ≡ (when decodes (begun first) second then 0 else 9) }
    {
        Decoded::finish(Begun::begin(first), second)
    }
}
