// 16-bit words: sums and differences that keep the low 16 bits, even addresses, a number in 8 bits.
ghost use Rattle.std.specs.Prelude.{◌≡◌};
ghost use Rattle.base.specs.Word.{sum16, difference16, drop_bit0, is_even, byte_of};

// a + b, its low 16 bits.
pub fn sum(a: u16, b: u16) -> u16
    ensures { result ≡ sum16 a b }
{
    a.wrapping_add(b)
}

// a - b, its low 16 bits.
pub fn difference(a: u16, b: u16) -> u16
    ensures { result ≡ difference16 a b }
{
    a.wrapping_sub(b)
}

// The address less its bit 0.
pub fn drop_bit_0(a: u16) -> u16
    ensures { result ≡ drop_bit0 a }
{
    a & 0xfffe
}

pub fn is_even(a: u16) -> bool
    ensures { result ≡ is_even a }
{
    a % 2 == 0
}

// A number in 8 bits: what has more is 255, which is neither an age of a frame nor a register. The C interface has such numbers in 16 bits.
#[tactic(auto, using(crate::proofs::Tests::choices), unfolding(crate::specs::Word::byte_of))]
pub fn byte_of(n: u16) -> u8
    ensures { result ≡ byte_of n }
{
    u8::try_from(n).unwrap_or(255)
}
