// Why a sheet is refused, by its refusal.
use crate::fence::fence_reason;
use crate::line::line_reason;
use crate::part::line_at;
use crate::reason::{Place, Reason, Text};
use crate::stamp::stamp_reason;
use base::refusal::{Refusal, SheetRefusal};

// What is wrong.
pub fn reason_of(sheet: &[u8], refused: SheetRefusal) -> Reason {
    let line = refused.line;
    match refused.refusal {
        Refusal::Fence => fence_reason(line_at(sheet, line)),
        Refusal::Timetable | Refusal::Trace => stamp_reason(sheet, line),
        Refusal::Distance => Reason::quoting(Text::BudgetHigh, Place::new(line, 1)),
        Refusal::Line => line_reason(sheet, line),
        Refusal::Sheet => Reason::plain(Text::TooLong),
        Refusal::Map | Refusal::Frame | Refusal::Landmark | Refusal::Clock | Refusal::Word => {
            Reason::plain(Text::NoReason)
        }
    }
}
