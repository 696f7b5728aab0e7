// What is claimed of instruction words: each claim is the contract of a function with nothing to do.
ghost use Rattle.base.specs.Case.{Settled};
ghost use Rattle.isa.specs.Laws.{ReadThenWritten, WrittenThenRead, SecondUnread};
ghost use Rattle.isa.specs.Starred.{word_cases};

// Writing what was read gives back exactly the words.
#[tactic(auto, using(crate::proofs::Words::read_then_written))]
pub fn read_then_written()
    ensures { ReadThenWritten }
{}

// Reading what was written gives back the instruction.
#[tactic(auto, using(crate::proofs::Words::written_then_read))]
pub fn written_then_read()
    ensures { WrittenThenRead }
{}

// A second word beyond the length is not looked at.
#[tactic(auto, using(crate::proofs::Words::second_unread))]
pub fn second_word_unread()
    ensures { SecondUnread }
{}

// The starred cases of document 01 on instruction words.
#[tactic(auto, unfolding(crate::proofs::Computes::computes))]
pub fn starred_words()
    ensures { Settled word_cases }
{}
