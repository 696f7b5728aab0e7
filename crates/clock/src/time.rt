// The clock, the requests, the pending slot that takes them, and the word of the device.
ghost use Rattle.std.specs.Prelude.{◌≡◌, ◌+◌, ◌≤◌, true, false, length, nat_le};
ghost use Rattle.std.specs.List.{prefix_len};
ghost use Rattle.base.specs.Limits.{last_clock};
ghost use Rattle.layout.specs.declared.sections.Layout.{Layout};
ghost use Rattle.definition.specs.Time.{start_time, happens, happening, earlier, filled_by, alarm_left, emptied, set_alarm, device_word, pass};
ghost use Rattle.definition.specs.Calls.{timetable};
ghost use Rattle.clock.specs.Upcoming.{stamp_at, word_before, StampsPassed, IsUpcoming, clock_room};
ghost use Rattle.clock.specs.NoEvent.{NotHappeningUntil};

use crate::lists::RequestLists;
use base::limits::LAST_CLOCK;
use definition::state::Time;

// The clock at the start, with no request pending and no alarm.
pub fn start_time() -> Time
    ensures { result ≡ start_time }
{
    Time {
        clock: 0,
        slot: None,
        alarm: None,
    }
}

// A request with this stamp happens while the clock passes from a to b.
#[tactic(auto, using(base::proofs::Tests::choices), unfolding(base::specs::Test::all))]
fn happens(a: u64, b: u64, stamp: u64) -> bool
    ensures { result ≡ happens a b stamp }
{
    a < stamp && stamp <= b
}

// The stamp, if it happens while the clock passes from a to b.
#[tactic(auto, unfolding(definition::specs::Time::happening, base::specs::Test::all))]
fn happening(a: u64, b: u64, stamp: Option<u64>) -> Option<u64>
    ensures { result ≡ happening a b stamp }
{
    stamp.filter(|&s| happens(a, b, s))
}

// The earlier of two.
#[tactic(auto, using(base::proofs::Tests::choices), unfolding(definition::specs::Time::earlier))]
fn earlier(one: Option<u64>, other: Option<u64>) -> Option<u64>
    ensures { result ≡ earlier one other }
{
    let (Some(s), Some(t)) = (one, other) else {
        return one.or(other);
    };
    let sooner = s <= t;
    if sooner { one } else { other }
}

// The slot, if empty, takes the request.
#[tactic(auto, unfolding(definition::specs::Time::filled_by))]
fn filled_by(slot: Option<u64>, request: Option<u64>) -> Option<u64>
    ensures { result ≡ filled_by slot request }
{
    slot.or(request)
}

// The alarm clears when it happens.
#[tactic(auto, unfolding(definition::specs::Time::alarm_left, base::specs::Test::all))]
fn alarm_left(a: u64, b: u64, alarm: Option<u64>) -> Option<u64>
    ensures { result ≡ alarm_left a b alarm }
{
    alarm.filter(|&s| !happens(a, b, s))
}

// How many of the stamps, from the first on, the clock has passed.
fn count_passed(stamps: &[u64], clock: u64) -> usize
    ensures count { result ≡ prefix_len (λ stamp. nat_le stamp clock) stamps.now }
    ensures within { result ≤ length stamps.now }
{
    stamps.iter().take_while(|&&stamp| stamp <= clock).count()
}

// The last clock value up to which a request does not happen: just before it, if it is still to happen.
#[tactic(auto, using(base::proofs::Tests::choices), unfolding(definition::specs::Time::happening, base::specs::Test::all))]
fn before_stamp(clock: u64, stamp: Option<u64>, until: u64) -> u64
    ensures { (result ≤ until) × NotHappeningUntil clock stamp result }
{
    match stamp {
        Some(s) if clock < s && s <= until => s - 1,
        _ => until,
    }
}

// While a request is pending others merge into it, so only the alarm counts; 0 where interrupts are not masked.
// No Option: 0 is a clock value like any other, which no step ends at or before, and nobody asks whether it is 0.
#[tactic(auto, using(base::proofs::Tests::choices), unfolding(definition::specs::Time::happening, base::specs::Test::all))]
fn alarm_until(masked: bool, clock: u64, alarm: Option<u64>) -> u64
    ensures { (result ≤ last_clock) × NotHappeningUntil clock alarm result × (masked ≡ false → result ≡ 0) }
{
    if masked {
        return before_stamp(clock, alarm, LAST_CLOCK);
    }
    0
}

// The slot empties.
#[tactic(auto, unfolding(definition::specs::Time::emptied))]
pub fn emptied(t: Time) -> Time
    ensures { result ≡ emptied t }
{
    Time { slot: None, ..t }
}

// OUT of w: the alarm is set to clock + w, replacing any; 0 clears it.
#[tactic(auto, using(base::proofs::Tests::choices), unfolding(definition::specs::Time::set_alarm))]
pub fn set_alarm(t: Time, w: u16) -> Time
    ensures { t.clock ≤ clock_room → result ≡ set_alarm w t }
{
    if w == 0 {
        return Time { alarm: None, ..t };
    }
    Time {
        alarm: Some(t.clock.wrapping_add(u64::from(w))),
        ..t
    }
}

// The stamp at an index, if there is one.
#[tactic(auto, using(base::proofs::Tests::choices), unfolding(crate::specs::Upcoming::stamp_at))]
fn stamp_at(stamps: &[u64], index: usize) -> Option<u64>
    ensures { result ≡ stamp_at stamps.now index }
{
    stamps.get(index).copied()
}

// The word before an index, 0 at the first.
#[tactic(auto, using(base::proofs::Tests::choices), unfolding(crate::specs::Upcoming::word_before))]
fn word_before(words: &[u16], index: usize) -> u16
    ensures { result ≡ word_before words.now index }
{
    if index == 0 {
        return 0;
    }
    words.get(index - 1).copied().unwrap_or(0)
}

// The index of the upcoming stamp at a clock value, looked for from an index on.
fn upcoming_at(stamps: &[u64], from: usize, clock: u64) -> usize
    ensures { timetable stamps.now ≡ true → StampsPassed stamps.now clock from → IsUpcoming stamps.now clock result }
{
    if stamps.len() < from {
        return from;
    }
    from + count_passed(&stamps[from..], clock)
}

// The requests of a run's lists, with an index in each, from which the upcoming stamp is looked for: promises are made where the clock has passed the
// stamps before it (`HasPassed`). The layout goes beside them and in no struct with them: what takes one of the two promises its result for every value
// of the other (docs/DECISIONS.md, *One record for what stays fixed*). The clock that they are at is no field: the waits of one step look from the same
// indices at several clock values.
#[derive(Clone, Copy)]
pub struct Requests<'a> {
    pub lists: RequestLists<'a>,
    pub upcoming: usize,
    pub upcoming_record: usize,
}

impl<'a> RequestLists<'a> {
    ghost use Rattle.clock.specs.Requests.{Tested, AtClock};

    // The requests at a clock value: the upcoming ones are looked for from the first on.
    #[tactic(auto, using(crate::proofs::UpcomingLaws::none_passed))]
    pub fn requests_at(self, clock: u64) -> Requests<'a>
        ensures lists { result.lists ≡ self.entry }
        ensures upcoming { Tested self.entry → AtClock result clock }
    {
        let first = Requests {
            lists: self,
            upcoming: 0,
            upcoming_record: 0,
        };
        first.at(clock)
    }
}

impl<'a> Requests<'a> {
    ghost use Rattle.clock.specs.NoEvent.{NoEventUntil};
    ghost use Rattle.clock.specs.Requests.{setting_with, HasPassed, AtClock, CanPass};

    // The stamp of the upcoming request of the timetable, if there is one.
    fn stamp(self) -> Option<u64>
        ensures { result ≡ stamp_at self.entry.lists.stamps.now self.entry.upcoming }
    {
        stamp_at(self.lists.stamps, self.upcoming)
    }

    // The stamp of the upcoming record, if there is one.
    fn record_stamp(self) -> Option<u64>
        ensures { result ≡ stamp_at self.entry.lists.trace.stamps.now self.entry.upcoming_record }
    {
        stamp_at(self.lists.trace.stamps, self.upcoming_record)
    }

    // The requests at a later clock value: the upcoming ones are looked for from here on.
    pub fn at(self, clock: u64) -> Requests<'a>
        ensures lists { result.lists ≡ self.entry.lists }
        ensures upcoming { HasPassed self.entry clock → AtClock result clock }
    {
        let lists = self.lists;
        Requests {
            lists,
            upcoming: upcoming_at(lists.stamps, self.upcoming, clock),
            upcoming_record: upcoming_at(lists.trace.stamps, self.upcoming_record, clock),
        }
    }

    // What IN gives: the word of the last record whose stamp is at most the clock, 0 before the first; without a trace the clock's low 16 bits.
    #[tactic(auto, using(base::proofs::Tests::choices), unfolding(definition::specs::Time::device_word))]
    pub fn device_word(self, t: Time) -> u16
        ensures { (L : Layout) → HasPassed self.entry t.clock → result ≡ device_word (setting_with L self.entry) t }
    {
        let trace = self.lists.trace;
        if trace.stamps.is_empty() {
            return (t.clock % 65536) as u16;
        }
        let next = upcoming_at(trace.stamps, self.upcoming_record, t.clock);
        word_before(trace.words, next)
    }

    // n cycles pass, with the upcoming stamps: the only thing that moves the clock, fills the slot and rings the alarm.
    #[tactic(auto, using(crate::proofs::UpcomingLaws::request_upcoming), unfolding(definition::specs::Time::pass))]
    fn pass(self, t: Time, n: u64) -> Time
        ensures { (L : Layout) → t.clock + n ≤ clock_room → AtClock self.entry t.clock → result ≡ pass (setting_with L self.entry) n t }
    {
        let a = t.clock;
        let b = a.wrapping_add(n);
        let stamped = earlier(
            happening(a, b, self.stamp()),
            happening(a, b, self.record_stamp()),
        );
        let request = earlier(stamped, happening(a, b, t.alarm));
        Time {
            clock: b,
            slot: filled_by(t.slot, request),
            alarm: alarm_left(a, b, t.alarm),
        }
    }

    // n cycles pass, from indices before which the clock has passed all stamps. Inlined by a hint, into each wait of a step (docs/PERFORMANCE.md).
    #[inline(always)]
    pub fn wait(self, t: Time, n: u64) -> Time
        ensures { (L : Layout) → CanPass self.entry t.clock n → result ≡ pass (setting_with L self.entry) n t }
    {
        self.at(t.clock).pass(t, n)
    }

    // A clock value up to which time only goes on and no interrupt is due, at most 2^62; 0 where there is none (see `alarm_until`).
    pub fn no_event_until(self, halted: bool, masked: bool, t: Time) -> u64
        ensures { (L : Layout) → AtClock self.entry t.clock → NoEventUntil (setting_with L self.entry) masked t result × (halted ≡ true → result ≡ 0) }
    {
        if halted {
            return 0;
        }
        match t.slot {
            Some(_) => alarm_until(masked, t.clock, t.alarm),
            None => {
                let until = before_stamp(t.clock, t.alarm, LAST_CLOCK);
                let stamped = before_stamp(t.clock, self.stamp(), until);
                before_stamp(t.clock, self.record_stamp(), stamped)
            }
        }
    }
}
