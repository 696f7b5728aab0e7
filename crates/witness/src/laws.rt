// What is claimed of machines written out: each claim is the contract of a function with nothing to do.
ghost use Rattle.base.specs.Case.{Settled};
ghost use Rattle.witness.specs.Starred.{starred_cases};
ghost use Rattle.witness.specs.Example.{NotVacuous};
ghost use Rattle.witness.specs.Needed.{WayNeeded, RegistersNeeded, OwnCyclesNeeded, WaitsNotOwn};

// The starred cases of document 01, one list, and its sheet.
#[tactic(auto, unfolding(crate::proofs::Computes::computes, crate::specs::Starred::sheet, crate::specs::Starred::sheet_lines))]
pub fn starred()
    ensures { Settled starred_cases }
{}

// The premise and the conclusion of secrecy are not vacuous: two machines of which they speak.
#[tactic(auto, using(crate::proofs::Example::not_vacuous))]
pub fn secrecy_is_not_vacuous()
    ensures { NotVacuous }
{}

// Secrecy is false where the premise does not ask how visits end.
#[tactic(auto, using(crate::proofs::WithoutWay::way_needed))]
pub fn way_is_needed()
    ensures { WayNeeded }
{}

// Secrecy is false where the premise does not ask for equal registers.
#[tactic(auto, using(crate::proofs::WithoutRegisters::registers_needed))]
pub fn registers_are_needed()
    ensures { RegistersNeeded }
{}

// Secrecy is false where the premise does not ask for equal own cycles.
#[tactic(auto, using(crate::proofs::WithoutOwnCycles::own_cycles_needed))]
pub fn own_cycles_are_needed()
    ensures { OwnCyclesNeeded }
{}

// Secrecy is false where own cycles count the waits.
#[tactic(auto, using(crate::proofs::WaitsCounted::waits_not_own))]
pub fn waits_are_not_own()
    ensures { WaitsNotOwn }
{}
