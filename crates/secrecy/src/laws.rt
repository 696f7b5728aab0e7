// What is claimed of whole lists of calls: each claim is the contract of a function with nothing to do.
ghost use Rattle.secrecy.specs.Secrecy.{Secrecy};
ghost use Rattle.secrecy.specs.Duration.{Duration, Twelve};

// Demand 3: two machines that differ only in the module's bytes look the same to all outside code.
#[tactic(auto, using(crate::proofs::Secrecy::secrecy))]
pub fn secrecy()
    ensures { Secrecy }
{}

// An ended visit lasted its own instruction cycles and what its interrupts add.
#[tactic(auto, using(crate::proofs::FromStart::duration))]
pub fn visit_duration()
    ensures { Duration }
{}

// A request that fills the slot inside, or in return padding, reaches service exactly 12 cycles after its stamp.
#[tactic(auto, using(crate::proofs::FromStart::twelve))]
pub fn twelve_cycles()
    ensures { Twelve }
{}
