// The access question.
ghost use Rattle.std.specs.Prelude.{◌≡◌, ◌≤◌};
ghost use Rattle.layout.specs.declared.access.Right.{Right as RIGHT};
ghost use Rattle.layout.specs.Access.{may, access_answer, access_refusal};
ghost use Rattle.lentlayout.specs.Layout.{layout_of};
ghost use Rattle.lentlayout.specs.Access.{weight_if, rights_of};
ghost use Rattle.base.specs.Kept.{unless_refused};

use base::refusal::Refusal;
use layout::access::Right;
use layout::sections::Layout;

// This weight, if the layout allows it; else 0.
#[tactic(auto, using(base::proofs::Tests::choices), unfolding(crate::specs::Access::weight_if))]
fn weight_of(layout: Layout, from: u16, right: Right, a: u16, weight: u8) -> u8
    ensures { (result ≡ weight_if (may layout from right a) weight) × (result ≤ weight) }
{
    u8::from(layout.may(from, right, a)) * weight
}

// What an instruction at `from` may do to the byte at `a`: execute 1, read 2, write 4, or a sum of those.
#[tactic(auto, unfolding(crate::specs::Access::rights_of))]
fn rights_of(layout: Layout, from: u16, a: u16) -> u8
    ensures { result ≡ rights_of layout from a }
{
    let execute = weight_of(layout, from, Right::Execute, a, 1);
    let read = weight_of(layout, from, Right::Read, a, 2);
    let write = weight_of(layout, from, Right::Write, a, 4);
    execute + read + write
}

// The access question for all three rights at once, or refusal 2: numbers, as the C interface has them.
#[tactic(auto, using(base::proofs::Tests::choices), unfolding(layout::specs::Access::access_answer, base::specs::Kept::unless_refused))]
pub fn access_lent(layout: &[u16; 5], from: u16, a: u16, rights: &mut u8) -> u8
    ensures number { (right : RIGHT) → result ≡ access_refusal (access_answer (layout_of layout.now) from right a) }
    ensures rights { rights.new ≡ unless_refused result (rights_of (layout_of layout.now) from a) rights.old }
{
    let l = Layout::from(*layout);
    if !l.accepted() {
        return u8::from(Refusal::Fence);
    }
    *rights = rights_of(l, from, a);
    0
}
