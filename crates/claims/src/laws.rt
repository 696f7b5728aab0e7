// What is claimed of the machine: each claim is the contract of a function with nothing to do.
ghost use Rattle.definition.specs.Laws.{PassAdds, EmptyTrace, RecordsAreRequests, RecordsCountOnce, LastRecordRead, NoRecordYet, StepCycles, HaltedStays, FramedAtStart, FrameKept, LengthKept, OnlyDistanceLandmarkOrClock, GieKeptInside, NothingDueAtStart, NothingDueKept, AgeAtMostFive, WritesOwnSide, TouchesOwnSide, TwelveInside, TwelveInReturn, PaddedByStamp, PaddingSum, BarredUnread, NoReentry, SecondElsewhereUnread, PrivilegedInside, ChainsWhateverGie, ResetAfterStore, RunCounts, RunEnds, AddressSaid, NoStepAtStop, NoStopAddress, RunAdds, RunGoesOn, RefusalsInOrder, RefusedUntouched, OutsideLocal, InsideConfined};

// Passing n and then m cycles is passing n + m.
#[tactic(auto, using(definition::proofs::time::PassLaws::pass_adds))]
pub fn pass_adds()
    ensures { PassAdds }
{}

// Without a record requests, passing time and device are those of the machine that knew no trace.
#[tactic(auto, using(definition::proofs::time::TraceLaws::empty_trace))]
pub fn empty_trace()
    ensures { EmptyTrace }
{}

// A record is a request as a stamp of the timetable is.
#[tactic(auto, using(definition::proofs::time::TraceLaws::records_are_requests))]
pub fn records_are_requests()
    ensures { RecordsAreRequests }
{}

// Records whose stamps stand in the timetable add no request.
#[tactic(auto, using(definition::proofs::time::TraceLaws::records_count_once))]
pub fn records_count_once()
    ensures { RecordsCountOnce }
{}

// IN reads the last record that the clock has come to.
#[tactic(auto, using(definition::proofs::time::TraceLaws::last_record_read))]
pub fn last_record_read()
    ensures { LastRecordRead }
{}

// And 0 where all records are still ahead.
#[tactic(auto, using(definition::proofs::time::TraceLaws::no_record_yet))]
pub fn no_record_yet()
    ensures { NoRecordYet }
{}

// A step of a running machine adds 1 to 23 cycles.
#[tactic(auto, using(definition::proofs::step::CycleLaws::step_cycles))]
pub fn step_cycles()
    ensures { StepCycles }
{}

// A step of a halted machine changes nothing.
#[tactic(auto, using(definition::proofs::step::CycleLaws::halted_stays))]
pub fn halted_stays()
    ensures { HaltedStays }
{}

// The start state is framed.
#[tactic(auto, using(definition::proofs::frame::FrameLaws::framed_at_start))]
pub fn framed_at_start()
    ensures { FramedAtStart }
{}

// Every step of an accepted machine keeps the frame.
#[tactic(auto, using(definition::proofs::frame::FrameLaws::frame_kept))]
pub fn frame_kept()
    ensures { FrameKept }
{}

// Memory keeps its length.
#[tactic(auto, using(definition::proofs::step::TouchLaws::length_kept))]
pub fn length_kept()
    ensures { LengthKept }
{}

// After start only refusals 5, 11 and 6 can happen.
#[tactic(auto, using(definition::proofs::frame::FrameLaws::only_distance_landmark_or_clock))]
pub fn only_distance_landmark_or_clock()
    ensures { OnlyDistanceLandmarkOrClock }
{}

// Code inside never alters GIE.
#[tactic(auto, using(definition::proofs::step::GieLaws::gie_kept_inside))]
pub fn gie_kept_inside()
    ensures { GieKeptInside }
{}

// At the start, where GIE is set the slot is empty.
#[tactic(auto, using(definition::proofs::step::NothingDueLaws::nothing_due_at_start))]
pub fn nothing_due_at_start()
    ensures { NothingDueAtStart }
{}

// So after every step.
#[tactic(auto, using(definition::proofs::step::NothingDueLaws::nothing_due_kept))]
pub fn nothing_due_kept()
    ensures { NothingDueKept }
{}

// The age at a padded service is at most 5.
#[tactic(auto, using(definition::proofs::step::NothingDueLaws::age_at_most_five))]
pub fn age_at_most_five()
    ensures { AgeAtMostFive }
{}

// A step inside writes only code and data, a step elsewhere only outside.
#[tactic(auto, using(definition::proofs::step::TouchLaws::writes_own_side))]
pub fn writes_own_side()
    ensures { WritesOwnSide }
{}

// An instruction that acts reads and writes data if it is inside, and outside if it is not.
#[tactic(auto, using(definition::proofs::cause::SideLaws::touches_own_side))]
pub fn touches_own_side()
    ensures { TouchesOwnSide }
{}

// A request that fills the slot during an instruction inside reaches service 12 cycles after its stamp.
#[tactic(auto, using(definition::proofs::step::TwelveLaws::twelve_inside))]
pub fn twelve_inside()
    ensures { TwelveInside }
{}

// So does one that fills it in return padding.
#[tactic(auto, using(definition::proofs::step::TwelveLaws::twelve_in_return))]
pub fn twelve_in_return()
    ensures { TwelveInReturn }
{}

// The time at which a padded service starts is decided by the stamp alone.
#[tactic(auto, using(definition::proofs::step::TwelveLaws::padded_by_stamp))]
pub fn padded_by_stamp()
    ensures { PaddedByStamp }
{}

// The wait before a padded service and the wait after its return come to one sum, whatever the age.
#[tactic(auto, using(definition::proofs::step::TwelveLaws::padding_sum))]
pub fn padding_sum()
    ensures { PaddingSum }
{}

// A word that may not be executed is not read.
#[tactic(auto, using(definition::proofs::cause::CauseLaws::barred_unread))]
pub fn barred_unread()
    ensures { BarredUnread }
{}

// The module is not entered again while a visit is held.
#[tactic(auto, using(definition::proofs::cause::CauseLaws::no_reentry))]
pub fn no_reentry()
    ensures { NoReentry }
{}

// A second word on another side is not read.
#[tactic(auto, using(definition::proofs::cause::CauseLaws::second_elsewhere_unread))]
pub fn second_elsewhere_unread()
    ensures { SecondElsewhereUnread }
{}

// HLT, IN and OUT inside reset by that name.
#[tactic(auto, using(definition::proofs::cause::CauseLaws::privileged_inside))]
pub fn privileged_inside()
    ensures { PrivilegedInside }
{}

// RETI while a visit is held chains if the slot is filled, whatever GIE is.
#[tactic(auto, using(definition::proofs::step::GieLaws::chains_whatever_gie))]
pub fn chains_whatever_gie()
    ensures { ChainsWhateverGie }
{}

// A reset leaves pc at the vector's word in the memory that the step leaves, an empty slot and no held visit.
#[tactic(auto, using(definition::proofs::step::TouchLaws::reset_after_store))]
pub fn reset_after_store()
    ensures { ResetAfterStore }
{}

// A run's count is the number of steps made.
#[tactic(auto, using(definition::proofs::run::RunLaws::run_counts))]
pub fn run_counts()
    ensures { RunCounts }
{}

// A run says an end exactly when it is so.
#[tactic(auto, using(definition::proofs::run::RunLaws::run_ends))]
pub fn run_ends()
    ensures { RunEnds }
{}

// Where a run stops not halted, its clock not above 2^62, and at its stop address, it says "address".
#[tactic(auto, using(definition::proofs::run::RunLaws::address_said))]
pub fn address_said()
    ensures { AddressSaid }
{}

// No step of a run begins at its stop address.
#[tactic(auto, using(definition::proofs::run::RunLaws::no_step_at_stop))]
pub fn no_step_at_stop()
    ensures { NoStepAtStop }
{}

// Without a stop address a run is that of a machine whose runs know none.
#[tactic(auto, using(definition::proofs::run::RunLaws::no_stop_address))]
pub fn no_stop_address()
    ensures { NoStopAddress }
{}

// Running n and then k steps is running n + k.
#[tactic(auto, using(definition::proofs::run::RunLaws::run_adds))]
pub fn run_adds()
    ensures { RunAdds }
{}

// A run to a stop address and on from there is the run without it.
#[tactic(auto, using(definition::proofs::run::RunLaws::run_goes_on))]
pub fn run_goes_on()
    ensures { RunGoesOn }
{}

// Every call makes its tests in the order of their numbers, but 10 right after 3 and 11 right after 5.
#[tactic(auto, using(definition::proofs::run::CallLaws::refusals_in_order))]
pub fn refusals_in_order()
    ensures { RefusalsInOrder }
{}

// A call that is refused leaves the machine and every byte as they came.
#[tactic(auto, using(definition::proofs::run::CallLaws::refused_untouched))]
pub fn refused_untouched()
    ensures { RefusedUntouched }
{}

// A step of a running machine that begins outside is decided by what is seen from outside, or resumes the held module.
#[tactic(auto, using(definition::proofs::separation::LocalLaws::outside_local))]
pub fn outside_local()
    ensures { OutsideLocal }
{}

// An instruction inside passes only its cycles, keeps the outside bytes and keeps GIE.
#[tactic(auto, using(definition::proofs::separation::ConfinedLaws::inside_confined))]
pub fn inside_confined()
    ensures { InsideConfined }
{}
