// What is claimed of pages: each claim is the contract of a function with nothing to do.
ghost use Rattle.output.specs.Laws.{PagesMakeWhole, PagesMakeOutput};

// Pages of any size of at least one line make the whole of what was still to be written.
#[tactic(auto, using(crate::proofs::PagesLaws::pages_make_whole))]
pub fn pages_make_whole()
    ensures { PagesMakeWhole }
{}

// Of an opened sheet they make all that it leads to.
#[tactic(auto, using(crate::proofs::PagesLaws::pages_make_output))]
pub fn pages_make_output()
    ensures { PagesMakeOutput }
{}
