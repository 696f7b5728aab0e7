// What a call on a machine hands on.

// A machine, whole or what it has beside its lent registers, and what the call answers.
#[derive(Clone, Copy)]
pub struct Answered<M, A> {
    pub machine: M,
    pub answer: A,
}
