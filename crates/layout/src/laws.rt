// What is proved of every layout, each law as the claim of a function with nothing to do.
ghost use Rattle.base.specs.Case.{Settled};
ghost use Rattle.layout.specs.Laws.{WordInOneSection, VectorOutside, SectionsApart, OverlapMeets, ServiceOutside, ElsewhereTouchesOutside, EnteredAtEntry, EntryOpen, InsideTouchesData, WordTouchedWhole};
ghost use Rattle.layout.specs.Starred.{access_cases};

// The two bytes of a word lie in one section.
#[tactic(auto, using(crate::proofs::LayoutLaws::word_in_one_section))]
pub fn word_in_one_section()
    ensures { WordInOneSection }
{}

// FFFE, FFFF and all above lie in no section.
#[tactic(auto, using(crate::proofs::LayoutLaws::vector_outside))]
pub fn vector_outside()
    ensures { VectorOutside }
{}

// No address is in both sections.
#[tactic(auto, using(crate::proofs::LayoutLaws::sections_apart))]
pub fn sections_apart()
    ensures { SectionsApart }
{}

// Two sections that overlap have an address in common.
#[tactic(auto, using(crate::proofs::SpanLaws::overlap_meets))]
pub fn overlap_meets()
    ensures { OverlapMeets }
{}

// The service address is outside.
#[tactic(auto, using(crate::proofs::LayoutLaws::service_outside))]
pub fn service_outside()
    ensures { ServiceOutside }
{}

// An instruction that is not inside may read and write no section.
#[tactic(auto, using(crate::proofs::AccessLaws::elsewhere_touches_outside))]
pub fn elsewhere_touches_outside()
    ensures { ElsewhereTouchesOutside }
{}

// From elsewhere nothing of a section may be executed but the entry.
#[tactic(auto, using(crate::proofs::AccessLaws::entered_at_entry))]
pub fn entered_at_entry()
    ensures { EnteredAtEntry }
{}

// The entry may be executed from everywhere.
#[tactic(auto, using(crate::proofs::AccessLaws::entry_open))]
pub fn entry_open()
    ensures { EntryOpen }
{}

// An instruction inside may read and write only data.
#[tactic(auto, using(crate::proofs::AccessLaws::inside_touches_data))]
pub fn inside_touches_data()
    ensures { InsideTouchesData }
{}

// A word may be read or written whole or not at all.
#[tactic(auto, using(crate::proofs::AccessLaws::word_touched_whole))]
pub fn word_touched_whole()
    ensures { WordTouchedWhole }
{}

// The starred case on access.
#[tactic(auto, unfolding(crate::proofs::Computes::computes))]
pub fn starred_access()
    ensures { Settled access_cases }
{}
