// What is claimed of fast steps: each claim is the contract of a function with nothing to do.
ghost use Rattle.fast.specs.Laws.{FastByTable};

// Wherever the fast way takes a first word, its effect is the table's (`effect_by_table`) and takes no more cycles than a fast step is given.
#[tactic(auto, using(crate::proofs::FastTable::fast_by_table))]
pub fn fast_by_table()
    ensures { FastByTable }
{}
