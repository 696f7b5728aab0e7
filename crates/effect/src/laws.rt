// What is claimed of the fast way: each claim is the contract of a function with nothing to do.
ghost use Rattle.effect.specs.Laws.{EffectByTable};

// Wherever the fast way takes a first word, the table reads an instruction there, whose cycles and length it takes.
#[tactic(auto, using(crate::proofs::EffectTable::effect_by_table))]
pub fn effect_by_table()
    ensures { EffectByTable }
{}
