// The state of the machine. Memory stands beside it.

// The clock, and the stamps of the pending slot and of the alarm, where there are such.
#[derive(Clone, Copy)]
pub struct Time {
    pub clock: u64,
    pub slot: Option<u64>,
    pub alarm: Option<u64>,
}

// What is held of a module that an interrupt broke into: its previous address and the age. Its registers stand in the state's saved copy.
#[derive(Clone, Copy)]
pub struct SavedContext {
    pub previous: u16,
    pub age: u8,
}

// The registers, the previous instruction's address, the time, the held visit if there is one, its saved registers, and whether it is halted.
// The saved registers stand beside the visit, since the C interface lends them apart and in place.
#[derive(Clone, Copy)]
pub struct State {
    pub registers: [u16; 16],
    pub previous: u16,
    pub time: Time,
    pub context: Option<SavedContext>,
    pub saved: [u16; 16],
    pub halted: bool,
}
