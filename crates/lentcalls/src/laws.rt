// What is claimed of calls on the numbers that a caller lends: a contract of a function with nothing to do.
ghost use Rattle.lentcalls.specs.Laws.{OddFlagRefused};

// Where `halted` or `held` is neither 0 nor 1, step and run refuse the numbers.
#[tactic(auto, using(crate::proofs::FlagLaws::odd_flag_refused))]
pub fn odd_flag_refused()
    ensures { OddFlagRefused }
{}
