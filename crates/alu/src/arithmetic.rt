// What ADD, SUB, CMP, AND and NOT compute.
ghost use Rattle.std.specs.Prelude.{◌≡◌};
ghost use Rattle.alu.specs.Arithmetic.{bit15, not_zero, sign_turns, added, subtracted, conjoined, inverted, computed};

use base::word::{difference, sum};
use rows::row::Operation;

// A 16-bit result, and the carry and the overflow that go with it to the flags.
#[derive(Clone, Copy, PartialEq, Eq, Debug)]
pub struct Computed {
    pub result: u16,
    pub carry: bool,
    pub overflow: bool,
}

// Bit 15, the sign.
pub fn bit_15(w: u16) -> bool
    ensures { result ≡ bit15 w }
{
    0x8000 <= w
}

impl Computed {
    // A result with an overflow. C means not zero.
    fn new(r: u16, overflow: bool) -> Computed
        ensures { result ≡ record { result = r; carry = not_zero r; overflow = overflow } }
    {
        Computed {
            result: r,
            carry: r != 0,
            overflow,
        }
    }
}

// Both operands have one sign and the result has the other.
#[tactic(auto, unfolding(base::specs::Test::all))]
fn sign_turns(a: bool, b: bool, r: bool) -> bool
    ensures { result ≡ sign_turns a b r }
{
    a == b && a != r
}

// Destination plus source.
fn add(s: u16, d: u16) -> Computed
    ensures { result ≡ added s d }
{
    let r = sum(d, s);
    Computed::new(r, sign_turns(bit_15(d), bit_15(s), bit_15(r)))
}

// Destination minus source.
fn subtract(s: u16, d: u16) -> Computed
    ensures { result ≡ subtracted s d }
{
    let r = difference(d, s);
    Computed::new(r, sign_turns(bit_15(d), !bit_15(s), bit_15(r)))
}

// The bits of both. V is 0.
fn mask(s: u16, d: u16) -> Computed
    ensures { result ≡ conjoined s d }
{
    Computed::new(s & d, false)
}

// NOT of the destination.
pub fn invert(d: u16) -> Computed
    ensures { result ≡ inverted d }
{
    Computed::new(0xffff - d, bit_15(d))
}

// What an operation computes from the source and the destination.
pub fn compute(o: Operation, s: u16, d: u16) -> Computed
    ensures { result ≡ computed o s d }
{
    match o {
        Operation::Add => add(s, d),
        Operation::Sub | Operation::Cmp => subtract(s, d),
        Operation::And => mask(s, d),
    }
}
