// What is claimed of tests in an order: each claim is the contract of a function with nothing to do.
ghost use Rattle.base.specs.Laws.{FirstFailureTold, TakenWhereAllHold};

// A call is refused by the first test that fails.
#[tactic(auto, using(crate::proofs::Tests::first_fails), unfolding(crate::specs::Laws::FirstFailureTold))]
pub fn first_failure_told()
    ensures { FirstFailureTold }
{}

// A call is taken where every test holds.
#[tactic(auto, using(crate::proofs::Tests::all_pass), unfolding(crate::specs::Laws::TakenWhereAllHold))]
pub fn taken_where_all_hold()
    ensures { TakenWhereAllHold }
{}
