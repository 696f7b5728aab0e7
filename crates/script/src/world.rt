// What a call is given: the machine, the layout, the bytes of the memory, the stamps and the trace.
ghost use Rattle.std.specs.Prelude.{◌≡◌, replicate};
ghost use Rattle.base.specs.Limits.{memory_bytes};
ghost use Rattle.script.specs.World.{zero_state, sheet_layout};

use crate::command::Part;
use crate::list::List;
use crate::memory;
use base::limits::MEMORY_BYTES;
use definition::state::{State, Time};
use layout::sections::Layout;
use storage::registers::set_register;

// Two bytes more than a memory has, so that a call can be lent too many.
pub const WORLD_BYTES: usize = 65538;

// The world of a call, which is lent the first `bytes` of the memory, and of each list the numbers that were put there. A count and no Vec: that
// takes an allocator along and may fail at each put.
#[derive(Clone, Copy)]
pub struct World {
    pub state: State,
    pub layout: Layout,
    pub memory: [u8; WORLD_BYTES],
    pub bytes: usize,
    pub stamps: List,
    pub trace_stamps: List,
    pub trace_words: List,
}

// Nothing but 0 in the state, and the previous address FFFE.
fn zero_state() -> State
    ensures { result ≡ zero_state }
{
    State {
        registers: [0; 16],
        previous: 0xfffe,
        time: Time {
            clock: 0,
            slot: None,
            alarm: None,
        },
        context: None,
        saved: [0; 16],
        halted: false,
    }
}

// The layout of document 01's sheet.
fn sheet_layout() -> Layout
    ensures { result ≡ sheet_layout }
{
    Layout::from([0x8000, 0x8008, 0x8100, 0x8104, 0x4500])
}

impl World {
    // A new world: no byte but 0 in memory, the layout of document 01's sheet, no stamps, no records.
    pub fn new() -> World
        ensures state { result.state ≡ zero_state }
        ensures layout { result.layout ≡ sheet_layout }
        ensures no_byte { result.memory ≡ replicate 65538 0 }
        ensures lent { result.bytes ≡ memory_bytes }
        ensures no_stamps { result.stamps.count ≡ 0 }
        ensures no_records { (result.trace_stamps.count ≡ 0) × (result.trace_words.count ≡ 0) }
    {
        World {
            state: zero_state(),
            layout: sheet_layout(),
            memory: [0; WORLD_BYTES],
            bytes: MEMORY_BYTES,
            stamps: List::empty(),
            trace_stamps: List::empty(),
            trace_words: List::empty(),
        }
    }

    // A new world again, part by part in its place: were another built and moved here, each list would be written too.
    pub fn clear(&mut self)
        ensures state { self.new.state ≡ zero_state }
        ensures layout { self.new.layout ≡ sheet_layout }
        ensures no_byte { self.new.memory ≡ replicate 65538 0 }
        ensures lent { self.new.bytes ≡ memory_bytes }
        ensures no_stamps { self.new.stamps.count ≡ 0 }
        ensures no_records { (self.new.trace_stamps.count ≡ 0) × (self.new.trace_words.count ≡ 0) }
    {
        self.state = zero_state();
        self.layout = sheet_layout();
        self.memory = [0; WORLD_BYTES];
        self.bytes = MEMORY_BYTES;
        self.stamps.clear();
        self.clear_trace();
    }

    // A part of the state overwritten.
    pub fn overwrite(&mut self, part: Part) {
        let state = &mut self.state;
        match part {
            Part::Register(n, w) => state.registers = set_register(state.registers, n, w),
            Part::Saved(n, w) => state.saved = set_register(state.saved, n, w),
            Part::Previous(a) => state.previous = a,
            Part::Clock(n) => state.time.clock = n,
            Part::Slot(s) => state.time.slot = s,
            Part::Alarm(s) => state.time.alarm = s,
            Part::Context(context) => {
                state.context = context;
                if context.is_some() {
                    // The held visit's registers are 0 but for GIE.
                    state.saved = set_register([0; 16], 2, 8);
                }
            }
            Part::Halted(halted) => state.halted = halted,
        }
    }

    // Words in memory, from an address on.
    pub fn put_words(&mut self, address: u16, words: &[u64]) {
        memory::put_words(&mut self.memory, address, words);
    }

    // An empty trace.
    pub fn clear_trace(&mut self)
        ensures no_records { (self.new.trace_stamps.count ≡ 0) × (self.new.trace_words.count ≡ 0) }
        ensures machine { (self.new.state ≡ self.old.state) × (self.new.layout ≡ self.old.layout) }
        ensures bytes { (self.new.memory ≡ self.old.memory) × (self.new.bytes ≡ self.old.bytes) }
        ensures stamps { self.new.stamps ≡ self.old.stamps }
    {
        self.trace_stamps.clear();
        self.trace_words.clear();
    }
}
