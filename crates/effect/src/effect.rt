// What a common instruction does, by the row of its first word: it sets pc, one more register and the status, or puts a word.
//
// That it goes by the table of instruction words is a law, `effect_by_table` in laws.rt: wherever a word is taken here, the table reads an
// instruction there, and its cycles and length are taken, by its kind, which the compiler folds.
ghost use Rattle.std.specs.Prelude.{◌≡◌, ◌≤◌};
ghost use Rattle.isa.specs.Cycles.{cycles_of};
ghost use Rattle.alu.specs.Arithmetic.{computed};
ghost use Rattle.effect.specs.Effect.{address_past, second_address, setting_pc_in, setting_register_in, computing, branching, moving, jumping, doing_nothing, loading, constant, storing, effect_of, fast_effect};

use alu::arithmetic::compute;
use alu::status::{set_flags, zero_is_set};
use base::word::{drop_bit_0, sum};
use isa::instruction::{Instruction, Operand};
use layout::access::Right;
use layout::sections::Layout;
use rows::read::Begun;
use rows::row::{Operation, Row};
use storage::memory::word_at;

// What a fast step begins with: the instruction's address, the status, and the registers that the second and the last digit of its first word
// name. Layout and memory go beside it: they are the machine's, and the memory stays lent.
#[derive(Clone, Copy)]
pub struct Fetched {
    pub address: u16,
    pub status: u16,
    pub x: u16,
    pub y: u16,
}

// What a fast step sets, in this order: pc, one more register by its number, the status; whether it puts its source; its cycles.
#[derive(Clone, Copy)]
pub struct Effect {
    pub to: u16,
    pub number: u8,
    pub word: u16,
    pub status: u16,
    pub puts: bool,
    pub cycles: u64,
}

// The address past the instruction at a, by its length in words.
fn address_past(a: u16, i: Instruction) -> u16
    ensures { result ≡ address_past a i }
{
    sum(a, 2 * u16::from(i.length()))
}

// The address of the second word of the instruction at a.
fn second_address(a: u16) -> u16
    ensures { result ≡ second_address a }
{
    sum(a, 2)
}

// The cycles of an instruction.
fn cycles_of(i: Instruction) -> u64
    ensures { result ≡ cycles_of i }
{
    u64::from(i.cycles())
}

// Only pc is set. It stands for the one more register too: with an Option the loop would have a case more.
fn set_pc(to: u16, status: u16, puts: bool, cycles: u64) -> Option<Effect>
    ensures { result ≡ setting_pc_in to status puts cycles }
{
    Some(Effect {
        to,
        number: 0,
        word: to,
        status,
        puts,
        cycles,
    })
}

// Pc is set, and a register above r3. Each caller asks for that before it calls: asked for here, it would make the next pc wait for it
// (docs/PERFORMANCE.md, *With another order of work*).
#[tactic(auto, using(base::proofs::Tests::choices), unfolding(crate::specs::Effect::setting_register_in))]
fn set_general(to: u16, d: u8, w: u16, status: u16, cycles: u64) -> Option<Effect>
    requires { 4 ≤ d }
    ensures { result ≡ setting_register_in to d w status cycles }
{
    Some(Effect {
        to,
        number: d,
        word: w,
        status,
        puts: false,
        cycles,
    })
}

// ADD, SUB, CMP, AND. Each is compiled on its own, where it is asked for.
#[inline(always)]
#[tactic(auto, using(base::proofs::Tests::choices), unfolding(crate::specs::Effect::setting_register_in))]
fn fast_compute(f: Fetched, o: Operation, s: u8, d: u8) -> Option<Effect>
    ensures { result ≡ computing f.address f.status o s d (computed o f.x f.y) }
{
    let i = Instruction::Compute(o, s, d);
    let next = address_past(f.address, i);
    let cycles = cycles_of(i);
    let c = compute(o, f.x, f.y);
    match o {
        Operation::Cmp => set_pc(next, set_flags(f.status, c), false, cycles),
        _ if d < 4 => None,
        _ => set_general(next, d, c.result, set_flags(f.status, c), cycles),
    }
}

// JZ.
#[tactic(auto, using(base::proofs::Tests::choices), unfolding(crate::specs::Effect::branching))]
fn fast_branch(f: Fetched, d: u8) -> Option<Effect>
    ensures { result ≡ branching f.address f.status f.y d }
{
    let i = Instruction::Jz(d);
    if zero_is_set(f.status) {
        return set_pc(drop_bit_0(f.y), f.status, false, cycles_of(i));
    }
    set_pc(address_past(f.address, i), f.status, false, cycles_of(i))
}

// 4s0d: MOV s d.
#[tactic(auto, using(base::proofs::Tests::choices), unfolding(crate::specs::Effect::setting_register_in))]
fn fast_move(f: Fetched, s: u8, d: u8) -> Option<Effect>
    ensures { result ≡ moving f.address f.status f.x s d }
{
    if d < 4 {
        return None;
    }
    let i = Instruction::Mov(Operand::Register(s), d);
    set_general(address_past(f.address, i), d, f.x, f.status, cycles_of(i))
}

// 4s00: JMP s.
fn fast_jump(f: Fetched, s: u8) -> Option<Effect>
    ensures { result ≡ jumping f.address f.status f.x s }
{
    set_pc(
        drop_bit_0(f.x),
        f.status,
        false,
        cycles_of(Instruction::Jmp(s)),
    )
}

// 4303: NOP.
fn fast_nop(f: Fetched) -> Option<Effect>
    ensures { result ≡ doing_nothing f.address f.status }
{
    let i = Instruction::Nop;
    set_pc(address_past(f.address, i), f.status, false, cycles_of(i))
}

// 4s2d: MOV @s d.
#[tactic(auto, using(base::proofs::Tests::choices), unfolding(crate::specs::Effect::loading, crate::specs::Effect::setting_register_in))]
fn fast_load(f: Fetched, layout: Layout, mem: &[u8], s: u8, d: u8) -> Option<Effect>
    ensures { result ≡ loading f.address f.status layout mem.now f.x s d }
{
    let i = Instruction::Mov(Operand::Pointed(s), d);
    if d < 4 {
        return None;
    }
    if layout.may(f.address, Right::Read, drop_bit_0(f.x)) {
        return set_general(
            address_past(f.address, i),
            d,
            word_at(mem, f.x),
            f.status,
            cycles_of(i),
        );
    }
    None
}

// 403d: MOV #w d.
#[tactic(auto, using(base::proofs::Tests::choices), unfolding(crate::specs::Effect::constant, crate::specs::Effect::setting_register_in))]
fn fast_constant(f: Fetched, layout: Layout, mem: &[u8], d: u8) -> Option<Effect>
    ensures { result ≡ constant f.address f.status layout mem.now d }
{
    let second = second_address(f.address);
    if d < 4 {
        return None;
    }
    if layout.same_side(f.address, second) {
        let w = word_at(mem, second);
        let i = Instruction::Mov(Operand::Constant(w), d);
        return set_general(address_past(f.address, i), d, w, f.status, cycles_of(i));
    }
    None
}

// 4s8d: MOV s 0(d).
#[tactic(auto, using(base::proofs::Tests::choices), unfolding(crate::specs::Effect::storing))]
fn fast_store(f: Fetched, layout: Layout, mem: &[u8], s: u8, d: u8) -> Option<Effect>
    ensures { result ≡ storing f.address f.status layout mem.now f.y s d }
{
    let i = Instruction::Store(s, d);
    let second = second_address(f.address);
    if !layout.same_side(f.address, second) {
        return None;
    }
    if word_at(mem, second) != 0 {
        return None;
    }
    if layout.may(f.address, Right::Write, drop_bit_0(f.y)) {
        return set_pc(address_past(f.address, i), f.status, true, cycles_of(i));
    }
    None
}

// By the row, with the second and the last digit of its first word. What is rare is left to the step.
#[tactic(auto, using(base::proofs::Tests::choices))]
fn effect_of(f: Fetched, layout: Layout, mem: &[u8], row: Row, s: u8, d: u8) -> Option<Effect>
    ensures { result ≡ effect_of f.address f.status layout mem.now f.x f.y s d row }
{
    match row {
        Row::Mov => fast_move(f, s, d),
        Row::Jmp => fast_jump(f, s),
        Row::Nop => fast_nop(f),
        Row::Immediate => fast_constant(f, layout, mem, d),
        Row::Compute(Operation::Add) => fast_compute(f, Operation::Add, s, d),
        Row::Compute(Operation::Sub) => fast_compute(f, Operation::Sub, s, d),
        Row::Compute(Operation::Cmp) => fast_compute(f, Operation::Cmp, s, d),
        Row::Compute(Operation::And) => fast_compute(f, Operation::And, s, d),
        Row::Load => fast_load(f, layout, mem, s, d),
        Row::Store => fast_store(f, layout, mem, s, d),
        Row::Jz => fast_branch(f, d),
        Row::Not | Row::In | Row::Out | Row::Reti | Row::Hlt => None,
    }
}

// What an instruction does, whose first word is w. Its registers are named by the word's digits and not by what is begun, which would be put
// together for it (docs/PERFORMANCE.md).
#[tactic(auto, unfolding(crate::specs::Effect::fast_effect))]
pub fn fast_effect(f: Fetched, layout: Layout, mem: &[u8], w: u16) -> Option<Effect>
    ensures { result ≡ fast_effect f.address f.status layout mem.now f.x f.y w }
{
    match Begun::begin(w) {
        Some(begun) => {
            let s = (w / 256 % 16) as u8;
            let d = (w % 16) as u8;
            effect_of(f, layout, mem, begun.row, s, d)
        }
        None => None,
    }
}
