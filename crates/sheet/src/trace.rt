// The trace of a sheet that was read.
ghost use Rattle.std.specs.Prelude.{◌≡◌, eqb, Ok};
ghost use Rattle.std.proofs.lemmas.List.Edits.{sets};
ghost use Rattle.base.specs.Test.{when◌then◌else◌};
ghost use Rattle.loader.specs.Setup.{sheet_trace};
ghost use Rattle.sheet.specs.Sheet.{sheet_answer};

use crate::reader::Setup;
use loader::load::load_trace;

// The sheet's trace, loaded to the front of what is lent. Where the reader met no record there is none, and the lines are not gone through for it.
#[tactic(auto, using(base::proofs::Tests::choices))]
pub fn load_setup_trace(setup: Setup, stamps: &mut [u64], words: &mut [u16], sheet: &[u8])
    ensures all_stamps { stamps.new ≡ (when eqb setup.records 0 then stamps.old else sets stamps.old 0 (sheet_trace sheet.now).stamps) }
    ensures all_words { words.new ≡ (when eqb setup.records 0 then words.old else sets words.old 0 (sheet_trace sheet.now).words) }
    ensures stamps { sheet_answer sheet.now ≡ Ok setup → stamps.new ≡ sets stamps.old 0 (sheet_trace sheet.now).stamps }
    ensures words { sheet_answer sheet.now ≡ Ok setup → words.new ≡ sets words.old 0 (sheet_trace sheet.now).words }
{
    if setup.records > 0 {
        load_trace(stamps, words, sheet);
    }
}
