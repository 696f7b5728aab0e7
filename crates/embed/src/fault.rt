// The first rule that a layout breaks.
ghost use Rattle.std.specs.Prelude.{◌≡◌};
ghost use Rattle.layout.specs.Rules.{layout_fault};
ghost use Rattle.lentlayout.specs.Layout.{layout_of};
ghost use Rattle.lentlayout.specs.Fault.{fault_number};

use lentlayout::fault::fault_lent;

// The number of the first rule that a layout breaks, 0 where it breaks none.
#[unsafe(no_mangle)]
pub extern "C" fn enclave_fault(layout: &[u16; 5]) -> u8
    ensures { result ≡ fault_number (layout_fault (layout_of layout.now)) }
{
    fault_lent(layout)
}
