// Where a run stops beside its other ends.

// Nowhere, or before a step whose pc is the address.
#[derive(Clone, Copy)]
pub enum StopAddress {
    Nowhere,
    At(u16),
}
