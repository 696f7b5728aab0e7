// The status word.
ghost use Rattle.std.specs.Prelude.{◌≡◌, ◌*◌, ◌≤◌};
ghost use Rattle.base.specs.Test.{bit_of};
ghost use Rattle.alu.specs.Status.{gie, zero, flags_of, set_flags, keep_gie};

use crate::arithmetic::{Computed, bit_15};

// GIE: interrupts are allowed.
#[tactic(auto, unfolding(crate::specs::Status::gie))]
pub fn gie_is_set(sr: u16) -> bool
    ensures { result ≡ gie sr }
{
    sr / 8 % 2 == 1
}

// Z is set.
#[tactic(auto, unfolding(crate::specs::Status::zero))]
pub fn zero_is_set(sr: u16) -> bool
    ensures { result ≡ zero sr }
{
    sr / 2 % 2 == 1
}

// The weight where the test holds, else 0.
fn bit(test: bool, weight: u16) -> u16
    ensures { (result ≡ bit_of test * weight) × (result ≤ weight) }
{
    u16::from(test) * weight
}

// C, Z, N and V in their places.
#[tactic(auto, unfolding(crate::specs::Status::flags_of))]
fn flags_of(c: Computed) -> u16
    ensures { (result ≡ flags_of c) × (result ≤ 0x107) }
{
    let r = c.result;
    bit(c.carry, 0x001) + bit(r == 0, 0x002) + bit(bit_15(r), 0x004) + bit(c.overflow, 0x100)
}

// The status with the flags of what was computed; its other bits stay.
#[tactic(auto, unfolding(crate::specs::Status::set_flags, crate::specs::Status::without_flags))]
pub fn set_flags(sr: u16, c: Computed) -> u16
    ensures { result ≡ set_flags sr c }
{
    sr / 512 * 512 + sr / 8 % 32 * 8 + flags_of(c)
}

// The new status with the old one's GIE.
#[tactic(auto, unfolding(crate::specs::Status::keep_gie))]
pub fn keep_gie(old: u16, new: u16) -> u16
    ensures { result ≡ keep_gie old new }
{
    new / 16 * 16 + old / 8 % 2 * 8 + new % 8
}
