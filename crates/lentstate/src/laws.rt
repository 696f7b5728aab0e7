// What is claimed of the numbers that a caller lends: each claim is the contract of a function with nothing to do.
ghost use Rattle.lentstate.specs.Laws.{MachineAgain, OddFlagUnframed};

// A machine of a frame, handed back and read again, is the same machine.
#[tactic(auto, using(crate::proofs::NumberLaws::machine_again))]
pub fn machine_again()
    ensures { MachineAgain }
{}

// Where `halted` or `held` is neither 0 nor 1, the numbers are of no frame.
#[tactic(auto, using(crate::proofs::FlagLaws::odd_flag_unframed))]
pub fn odd_flag_unframed()
    ensures { OddFlagUnframed }
{}
