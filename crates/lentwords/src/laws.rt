// What is claimed of an instruction as four numbers: each claim is the contract of a function with nothing to do.
ghost use Rattle.lentwords.specs.Laws.{RowAtIndex, FieldsWritten};

// Each row of the table of instruction words stands at its index.
#[tactic(auto, using(crate::proofs::RowLaws::row_at_index))]
pub fn row_at_index()
    ensures { RowAtIndex }
{}

// The four numbers of an instruction are written as the instruction is.
#[tactic(auto, using(crate::proofs::RowLaws::fields_written))]
pub fn fields_written()
    ensures { FieldsWritten }
{}
