// What is claimed of sheets: the claim is the contract of a function with nothing to do.
ghost use Rattle.sheet.specs.Laws.{ReadIsRunnable};

// What a sheet sets up, the machine takes: only its clock and state could refuse it, and a start state has neither fault.
#[tactic(auto, using(crate::proofs::RunnableLaws::read_is_runnable))]
pub fn read_is_runnable()
    ensures { ReadIsRunnable }
{}
