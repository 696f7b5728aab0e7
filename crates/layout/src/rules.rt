// The rules of a layout, in document 01's order.
ghost use Rattle.std.specs.Prelude.{◌≡◌};
ghost use Rattle.layout.specs.Rules.{even_address, even_span, filled, apart, all_even, all_filled, layout_fault, accepted};

use crate::sections::{Layout, Span};
use base::word;

// What each rule forbids: an odd address, a start not below its end, sections that overlap, a service address in one.
#[derive(Clone, Copy, Debug, PartialEq, Eq)]
pub enum Rule {
    Odd,
    Empty,
    Overlap,
    Service,
}

// The address is even; as a u16 it has 16 bits.
#[tactic(auto, unfolding(crate::specs::Rules::even_address, base::specs::Test::all))]
fn even_address(a: u16) -> bool
    ensures { result ≡ even_address a }
{
    word::is_even(a)
}

impl Span {
    // The start and the end are even.
    #[tactic(auto, unfolding(crate::specs::Rules::even_span, base::specs::Test::all))]
    fn is_even(self) -> bool
        ensures { result ≡ even_span self }
    {
        even_address(self.start) && even_address(self.end)
    }

    // The start is below the end.
    fn is_filled(self) -> bool
        ensures { result ≡ filled self }
    {
        self.start < self.end
    }

    // The spans have no address in common.
    #[tactic(auto, unfolding(crate::specs::Rules::apart, base::specs::Test::any))]
    fn is_apart(self, other: Span) -> bool
        ensures { result ≡ apart self other }
    {
        self.end <= other.start || other.end <= self.start
    }
}

impl Layout {
    // All five addresses are even.
    #[tactic(auto, unfolding(crate::specs::Rules::all_even, base::specs::Test::all))]
    fn all_even(self) -> bool
        ensures { result ≡ all_even self }
    {
        self.code.is_even() && self.data.is_even() && even_address(self.service)
    }

    // Each start is below its end.
    #[tactic(auto, unfolding(crate::specs::Rules::all_filled, base::specs::Test::all))]
    fn all_filled(self) -> bool
        ensures { result ≡ all_filled self }
    {
        self.code.is_filled() && self.data.is_filled()
    }

    // The first rule that is broken, if any.
    #[tactic(auto, using(base::proofs::Tests::choices), unfolding(crate::specs::Rules::layout_fault, base::specs::FirstFailure::first_failure))]
    pub fn fault(self) -> Option<Rule>
        ensures { result ≡ layout_fault self }
    {
        if !self.all_even() {
            return Some(Rule::Odd);
        }
        if !self.all_filled() {
            return Some(Rule::Empty);
        }
        if !self.code.is_apart(self.data) {
            return Some(Rule::Overlap);
        }
        if !self.outside(self.service) {
            return Some(Rule::Service);
        }
        None
    }

    // No rule is broken.
    #[tactic(auto, unfolding(crate::specs::Rules::accepted))]
    pub fn accepted(self) -> bool
        ensures { result ≡ accepted self }
    {
        self.fault().is_none()
    }
}
