// What is claimed of a layout as five numbers: the contract of a function with nothing to do.
ghost use Rattle.lentlayout.specs.Laws.{LayoutAgain};

// A layout handed back and read again is the same layout.
#[tactic(auto, unfolding(crate::specs::Laws::LayoutAgain, layout::specs::Fields::layout_of, layout::specs::Fields::layout_fields))]
pub fn layout_again()
    ensures { LayoutAgain }
{}
