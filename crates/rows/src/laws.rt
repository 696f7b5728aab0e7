// What is claimed of the table of instruction words: each claim is the contract of a function with nothing to do.
ghost use Rattle.rows.specs.Laws.{OneRow, AnyOrder};

// No first word is in two rows of the table.
#[tactic(auto, using(crate::proofs::Rows::one_row_only))]
pub fn no_word_in_two_rows()
    ensures { OneRow }
{}

// In whatever order the rows are looked at, each at least once, a first word begins the same.
#[tactic(auto, using(crate::proofs::Rows::any_order))]
pub fn any_order_reads_the_same()
    ensures { AnyOrder }
{}
