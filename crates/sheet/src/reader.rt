// The reader of a sheet: the setup that it tells, or the first bad line.
ghost use Rattle.std.specs.Prelude.{◌≡◌, ◌≤◌, ◌+◌, None, Some, length};
ghost use Rattle.base.specs.Limits.{most_sheet_bytes};
ghost use Rattle.base.specs.Test.{when◌then◌else◌};
ghost use Rattle.loader.specs.Setup.{pieces};
ghost use Rattle.sheet.specs.Sheet.{fits_list, with_stamp, no_lists, budget_answer, stage_of, body_from, SheetPromise};

use base::limits::{LAST_CLOCK, MOST_BUDGET, MOST_SHEET_BYTES, MOST_STAMPS};
use base::refusal::{Refusal, SheetRefusal};
use layout::sections::Layout;
use lines::line::{Content, read_line};
use std::ops::ControlFlow;
use text::text::{head, holds_byte, rest};

// What a sheet sets up: the layout, how many stamps the timetable has, how many records the trace, the budget. The counts and no Vec: the machine
// takes no heap, so stamps and records are loaded into the front of what a caller lends.
#[derive(Clone, Copy)]
pub struct Setup {
    pub layout: Layout,
    pub stamps: usize,
    pub records: usize,
    pub budget: u64,
}

// A list's stamps so far: the last one, and how many. Before the first the last is 0, which is below every stamp.
#[derive(Clone, Copy)]
pub struct StampsSoFar {
    pub last: u64,
    pub count: usize,
}

// The two lists so far: the stamps of the timetable, and those of the trace's records. Each rises by itself.
#[derive(Clone, Copy)]
pub struct ListsSoFar {
    pub timetable: StampsSoFar,
    pub trace: StampsSoFar,
}

// A list without a stamp.
const NO_STAMPS: StampsSoFar = StampsSoFar { last: 0, count: 0 };

impl StampsSoFar {
    // With another stamp, where the list takes it: not too many, rising, at most 2^62.
    #[tactic(auto, using(text::proofs::Choices::choices), unfolding(crate::specs::Sheet::fits_list, base::specs::Test::all))]
    fn with(self, stamp: u64) -> Option<StampsSoFar>
        ensures { result ≡ (when fits_list self stamp then Some (with_stamp self stamp) else None) }
    {
        if self.count < MOST_STAMPS && self.last < stamp && stamp <= LAST_CLOCK {
            return Some(StampsSoFar {
                last: stamp,
                count: self.count + 1,
            });
        }
        None
    }
}

// G at line n: nothing may follow it.
#[tactic(auto, using(text::proofs::Choices::choices), unfolding(crate::specs::Sheet::budget_answer))]
fn budget_answer(
    layout: Layout,
    n: u64,
    lists: ListsSoFar,
    budget: u64,
    last: bool,
) -> Result<Setup, SheetRefusal>
    requires { n ≤ most_sheet_bytes + 2 }
    ensures { result ≡ budget_answer layout n lists budget last }
{
    if budget > MOST_BUDGET {
        return Err(SheetRefusal::new(Refusal::Distance, n));
    }
    if !last {
        return Err(SheetRefusal::new(Refusal::Line, n + 1));
    }
    Ok(Setup {
        layout,
        stamps: lists.timetable.count,
        records: lists.trace.count,
        budget,
    })
}

// A line after the first, by what it says: the reading goes on with the lists so far, or ends with the answer.
#[tactic(auto, using(text::proofs::Choices::choices), unfolding(crate::specs::Sheet::stage_of))]
fn read_stage(
    layout: Layout,
    n: u64,
    lists: ListsSoFar,
    content: Content,
    ends: bool,
) -> ControlFlow<Result<Setup, SheetRefusal>, ListsSoFar>
    requires { n ≤ most_sheet_bytes + 2 }
    ensures { result ≡ stage_of layout n lists content ends }
{
    match content {
        Content::Layout(_) => ControlFlow::Break(Err(SheetRefusal::new(Refusal::Line, n))),
        Content::Word(_, _) => ControlFlow::Continue(lists),
        Content::Stamp(stamp) => match lists.timetable.with(stamp) {
            Some(timetable) => ControlFlow::Continue(ListsSoFar { timetable, ..lists }),
            None => ControlFlow::Break(Err(SheetRefusal::new(Refusal::Timetable, n))),
        },
        Content::Record(stamp, _) => match lists.trace.with(stamp) {
            Some(trace) => ControlFlow::Continue(ListsSoFar { trace, ..lists }),
            None => ControlFlow::Break(Err(SheetRefusal::new(Refusal::Trace, n))),
        },
        Content::Budget(budget) => {
            ControlFlow::Break(budget_answer(layout, n, lists, budget, ends))
        }
    }
}

// The lines after L. Each line's answer is taken apart, and a bad one leaves with its number.
// By `head` and `rest`, the form that document 01 asks for: the next line is handed back as a part of the sheet, and G must know whether anything
// follows it.
#[tactic(auto, using(text::proofs::Choices::choices, crate::proofs::SheetLaws::body_steps))]
fn read_body(layout: Layout, body: &[u8]) -> Result<Setup, SheetRefusal>
    requires { length body.now ≤ most_sheet_bytes }
    ensures { result ≡ body_from layout 2 no_lists (pieces body.now) }
{
    let mut left = body;
    let mut n: u64 = 2;
    let mut lists = ListsSoFar {
        timetable: NO_STAMPS,
        trace: NO_STAMPS,
    };
    while holds_byte(left, b'\n') {
        let after = rest(left, b'\n');
        let Some(content) = read_line(head(left, b'\n')) else {
            return Err(SheetRefusal::new(Refusal::Line, n));
        };
        match read_stage(layout, n, lists, content, after.is_empty()) {
            ControlFlow::Break(answer) => return answer,
            ControlFlow::Continue(more) => lists = more,
        }
        left = after;
        n += 1;
    }
    Err(SheetRefusal::new(Refusal::Line, n))
}

// A sheet's answer.
#[tactic(auto, using(text::proofs::Choices::choices, crate::proofs::SheetLaws::first_steps), unfolding(crate::specs::Sheet::sheet_answer))]
pub fn read_sheet(sheet: &[u8]) -> Result<Setup, SheetRefusal>
    ensures { SheetPromise sheet.now result }
{
    if sheet.len() > MOST_SHEET_BYTES {
        return Err(SheetRefusal::new(Refusal::Sheet, 0));
    }
    if !holds_byte(sheet, b'\n') {
        return Err(SheetRefusal::new(Refusal::Line, 1));
    }
    let Some(content) = read_line(head(sheet, b'\n')) else {
        return Err(SheetRefusal::new(Refusal::Line, 1));
    };
    let Content::Layout(layout) = content else {
        return Err(SheetRefusal::new(Refusal::Line, 1));
    };
    if !layout.accepted() {
        return Err(SheetRefusal::new(Refusal::Fence, 1));
    }
    read_body(layout, rest(sheet, b'\n'))
}
