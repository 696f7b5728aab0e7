// What is still to be written of a transcript.
use base::refusal::SheetRefusal;

// What is still to be written: a sheet's refusal; the header and what follows it; steps and the end; nothing.
#[derive(Clone, Copy)]
pub enum Remaining {
    RefusalLine(SheetRefusal),
    Header,
    Steps,
    Nothing,
}
