// The access question.
ghost use Rattle.std.specs.Prelude.{◌≡◌};
ghost use Rattle.base.specs.Kept.{unless_refused};
ghost use Rattle.layout.specs.declared.access.Right.{Right as RIGHT};
ghost use Rattle.layout.specs.Access.{access_answer, access_refusal};
ghost use Rattle.lentlayout.specs.Layout.{layout_of};
ghost use Rattle.lentlayout.specs.Access.{rights_of};

use lentlayout::access::access_lent;

// The access question for all three rights at once, or refusal 2.
#[unsafe(no_mangle)]
pub extern "C" fn enclave_access(layout: &[u16; 5], from: u16, a: u16, rights: &mut u8) -> u8
    ensures number { (right : RIGHT) → result ≡ access_refusal (access_answer (layout_of layout.now) from right a) }
    ensures rights { rights.new ≡ unless_refused result (rights_of (layout_of layout.now) from a) rights.old }
{
    access_lent(layout, from, a, rights)
}
