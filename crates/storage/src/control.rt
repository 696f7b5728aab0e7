// A state whose registers are lent: they are changed where they lie, and the rest of it goes by value. Registers and saved registers come apart,
// and in no struct with the rest: the C interface lends them so.
ghost use Rattle.std.specs.Prelude.{◌≡◌};
ghost use Rattle.storage.specs.Control.{with_registers, control_of};

use definition::state::{SavedContext, State, Time};

// What a state has beside its registers and its saved registers.
#[derive(Clone, Copy)]
pub struct Control {
    pub previous: u16,
    pub time: Time,
    pub context: Option<SavedContext>,
    pub halted: bool,
}

impl Control {
    // What a state has beside its registers: a part of it, and no conversion, so no `From`.
    pub fn of(s: State) -> Control
        ensures { result ≡ control_of s }
    {
        Control {
            previous: s.previous,
            time: s.time,
            context: s.context,
            halted: s.halted,
        }
    }

    // The state with these registers and saved registers.
    pub fn state(self, registers: [u16; 16], saved: [u16; 16]) -> State
        ensures { result ≡ with_registers registers saved self }
    {
        State {
            registers,
            previous: self.previous,
            time: self.time,
            context: self.context,
            saved,
            halted: self.halted,
        }
    }
}
