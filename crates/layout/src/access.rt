// The access table: what an instruction at one address may do to the byte at another.
ghost use Rattle.std.specs.Prelude.{◌≡◌};
ghost use Rattle.base.specs.Test.{when◌then◌else◌};
ghost use Rattle.layout.specs.Rules.{accepted};
ghost use Rattle.layout.specs.Access.{column_of, cell, grant, may, access_answer, access_refusal};

use crate::sections::{Layout, Section};
use base::refusal::Refusal;

// What an instruction may want to do to a byte.
#[derive(Clone, Copy, Debug, PartialEq, Eq)]
pub enum Right {
    Execute,
    Read,
    Write,
}

// The columns of the table.
#[derive(Clone, Copy, Debug, PartialEq, Eq)]
pub enum Column {
    Entry,
    OtherCode,
    Data,
    Outside,
}

// What a cell of the table allows: none, execute, read and write, all three.
#[derive(Clone, Copy, Debug, PartialEq, Eq)]
pub enum Rights {
    Nothing,
    ExecuteOnly,
    ReadWrite,
    AllThree,
}

// The cell of a row, inside or elsewhere, and a column.
fn cell(inside: bool, column: Column) -> Rights
    ensures { result ≡ cell inside column }
{
    if inside {
        match column {
            Column::Entry | Column::OtherCode | Column::Outside => Rights::ExecuteOnly,
            Column::Data => Rights::ReadWrite,
        }
    } else {
        match column {
            Column::Entry => Rights::ExecuteOnly,
            Column::OtherCode | Column::Data => Rights::Nothing,
            Column::Outside => Rights::AllThree,
        }
    }
}

impl Rights {
    // The cell allows it.
    fn grant(self, right: Right) -> bool
        ensures { result ≡ grant self right }
    {
        match self {
            Rights::Nothing => false,
            Rights::ExecuteOnly => matches!(right, Right::Execute),
            Rights::ReadWrite => matches!(right, Right::Read | Right::Write),
            Rights::AllThree => true,
        }
    }
}

impl Layout {
    // The column of an address.
    #[tactic(auto, using(base::proofs::Tests::choices), unfolding(crate::specs::Access::column_of))]
    pub fn column_of(self, a: u16) -> Column
        ensures { result ≡ column_of self a }
    {
        match self.section(a) {
            Section::Outside => Column::Outside,
            Section::Data => Column::Data,
            Section::Code if a == self.code.start => Column::Entry,
            Section::Code => Column::OtherCode,
        }
    }

    // An instruction at `from` may do this to the byte at `a`.
    #[tactic(auto, unfolding(crate::specs::Access::may))]
    pub fn may(self, from: u16, right: Right, a: u16) -> bool
        ensures { result ≡ may self from right a }
    {
        cell(self.inside(from), self.column_of(a)).grant(right)
    }

    // A caller's question: may an instruction at `from` do this to the byte at `a`? Refused where a rule is broken.
    #[tactic(auto, using(base::proofs::Tests::choices), unfolding(crate::specs::Access::access_answer))]
    pub fn access(self, from: u16, right: Right, a: u16) -> Result<bool, Refusal>
        ensures answer { result ≡ access_answer self from right a }
        ensures refusal { access_refusal result ≡ (when accepted self then 0 else 2) }
    {
        if !self.accepted() {
            return Err(Refusal::Fence);
        }
        Ok(self.may(from, right, a))
    }
}
