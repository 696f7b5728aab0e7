// Writing an instruction as its words.
ghost use Rattle.std.specs.Prelude.{◌≡◌};
ghost use Rattle.base.specs.Test.{when◌then◌else◌};
ghost use Rattle.rows.specs.Words.{encodable, writing_refusal};
ghost use Rattle.isa.specs.Encoding.{encoding_of};
ghost use Rattle.isa.specs.Words.{writing};

use crate::instruction::Instruction;
use base::refusal::Refusal;
use rows::row::Encoding;
use rows::write::Words;

impl Instruction {
    // Exactly the instruction's words, or refusal 9.
    #[tactic(auto, using(crate::proofs::Words::writing_number))]
    pub fn write(self) -> Result<Words, Refusal>
        ensures answer { result ≡ writing self }
        ensures number { writing_refusal result ≡ (when encodable (encoding_of self) then 0 else 9) }
    {
        Encoding::from(self).write()
    }
}
