// What is claimed of arithmetic and the status word: each claim is the contract of a function with nothing to do.
ghost use Rattle.base.specs.Case.{Settled};
ghost use Rattle.alu.specs.Laws.{OverflowIsSigned, FlagsOnly, GieKept};
ghost use Rattle.alu.specs.Starred.{sum_cases};

// V is signed overflow.
#[tactic(auto, using(crate::proofs::Overflow::overflow_is_signed))]
pub fn overflow_is_signed()
    ensures { OverflowIsSigned }
{}

// Setting flags leaves GIE and all other bits of the status alone.
#[tactic(auto, using(crate::proofs::StatusBits::flags_only))]
pub fn flags_only()
    ensures { FlagsOnly }
{}

// Keeping GIE keeps it and stores every other bit.
#[tactic(auto, using(crate::proofs::StatusBits::gie_kept))]
pub fn gie_kept()
    ensures { GieKept }
{}

// The starred cases of document 01 on sums and differences.
#[tactic(auto, unfolding(crate::proofs::Computes::computes))]
pub fn starred_sums()
    ensures { Settled sum_cases }
{}
