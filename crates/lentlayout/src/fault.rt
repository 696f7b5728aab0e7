// The first rule that a layout breaks.
ghost use Rattle.std.specs.Prelude.{◌≡◌};
ghost use Rattle.layout.specs.Rules.{layout_fault};
ghost use Rattle.lentlayout.specs.Layout.{layout_of};
ghost use Rattle.lentlayout.specs.Fault.{rule_number, fault_number};

use layout::rules::Rule;
use layout::sections::Layout;

// The number of a rule, in document 01's order from 1; no `From`: the number is the C interface's, of which the crate of
// `Rule` knows nothing.
fn rule_number(rule: Rule) -> u8
    ensures { result ≡ rule_number rule }
{
    match rule {
        Rule::Odd => 1,
        Rule::Empty => 2,
        Rule::Overlap => 3,
        Rule::Service => 4,
    }
}

// The number of the first rule that a layout breaks, 0 where it breaks none: the C interface has numbers.
pub fn fault_lent(layout: &[u16; 5]) -> u8
    ensures { result ≡ fault_number (layout_fault (layout_of layout.now)) }
{
    Layout::from(*layout).fault().map_or(0, rule_number)
}
