// The transcript's lines, each written to the front of a lent buffer, as far as it goes. Each answers its length and no part of the buffer, which may
// be shorter.
#![tactic(auto, using(crate::proofs::TranscriptLaws::length_decimal_bytes, crate::proofs::TranscriptLaws::length_hex_bytes))]

ghost use Rattle.std.specs.Prelude.{◌≡◌, [], ◌∷◌, ◌+◌, ◌<◌, ◌≤◌, ◌^◌, length, set};
ghost use Rattle.std.proofs.lemmas.List.Edits.{sets};
ghost use Rattle.text.specs.Text.{tab};
ghost use Rattle.transcript.specs.Transcript.{decimal_bytes, hex_byte, hex_bytes, header_line, step_line, end_line, refusal_line};
ghost use Rattle.transcript.specs.Put.{Puts};

use answers::answer::{End, Outcome};
use base::place::put_at;
use base::refusal::SheetRefusal;

// The digits of a decimal, from the last one back: those at the end of the text that is lent. By hand: a line is
// written at every step, and by the library's write! of its two decimals it takes some 54 instructions more than its 626, where no row of the benchmark
// may be slower than before.
#[tactic(auto, using(crate::proofs::TranscriptLaws::turns), unfolding(crate::specs::Transcript::decimal_bytes))]
pub fn decimal_digits<'a>(n: u64, text: &'a mut [u8; 20]) -> &'a [u8]
    ensures { result.now ≡ decimal_bytes n }
{
    let mut rest = n;
    for i in (0..20).rev() {
        text[i] = b'0' + (rest % 10) as u8;
        rest /= 10;
        if rest == 0 {
            return &text[i..];
        }
    }
    text
}

// A hexadecimal digit, capitals; by hand like the decimal ones.
#[tactic(auto, using(text::proofs::Choices::choices), unfolding(crate::specs::Transcript::hex_byte))]
fn hex_byte(d: u8) -> u8
    requires { d ≤ 15 }
    ensures { result ≡ hex_byte d }
{
    if d < 10 { b'0' + d } else { b'A' + (d - 10) }
}

// A line on its way to the front of a lent buffer, and how long it is so far, also past the buffer's end.
#[derive(Drop)]
pub struct Line<'a> {
    out: &'a mut [u8],
    filled: usize,
}

impl<'a> Line<'a> {
    // An empty line.
    pub fn new(out: &'a mut [u8]) -> Line<'a>
        ensures same_buffer { result.out.ghost_name ≡ out.entry.ghost_name }
        ensures buffer { result.out.now ≡ out.old }
        ensures empty { result.filled ≡ 0 }
    {
        Line { out, filled: 0 }
    }

    // Its length so far.
    pub fn len(&self) -> usize
        ensures { result ≡ self.now.filled }
    {
        self.filled
    }

    // Puts bytes, to a line that stays shorter than 2 ^ 64 bytes.
    pub fn put(&mut self, bytes: &[u8])
        ensures { self.old.filled + length bytes.now < 2 ^ 64 → Puts self.old self.new bytes.now }
    {
        // Byte by byte, as far as the buffer goes: of what is put no part may have room.
        for b in bytes {
            put_at(self.out, self.filled, *b);
            self.filled = self.filled.wrapping_add(1);
        }
    }

    // Puts a decimal, to a line that stays shorter than 2 ^ 64 bytes.
    pub fn put_decimal(&mut self, n: u64)
        ensures { self.old.filled + 20 < 2 ^ 64 → Puts self.old self.new (decimal_bytes n) }
    {
        let mut text = [0; 20];
        self.put(decimal_digits(n, &mut text));
    }

    // Puts a tab and a word's four hexadecimal digits.
    #[tactic(auto, unfolding(crate::specs::Transcript::hex_bytes))]
    fn put_hex_field(&mut self, w: u16)
        requires { self.old.filled + 5 < 2 ^ 64 }
        ensures { Puts self.old self.new (tab ∷ hex_bytes w) }
    {
        self.put(&[
            b'\t',
            hex_byte((w / 4096 % 16) as u8),
            hex_byte((w / 256 % 16) as u8),
            hex_byte((w / 16 % 16) as u8),
            hex_byte((w % 16) as u8),
        ]);
    }
}

// A step: its number, its kind, and clock, pc and sr after it.
pub fn step_line(out: &mut [u8], n: u64, kind: Outcome, clock: u64, pc: u16, sr: u16) -> usize
    ensures { (result ≡ length (step_line n kind clock pc sr)) × ((result ≤ 64) × (out.new ≡ sets out.old 0 (step_line n kind clock pc sr))) }
{
    let mut line = Line::new(out);
    line.put_decimal(n);
    line.put(&[b'\t', kind.letter(), b'\t']);
    line.put_decimal(clock);
    line.put_hex_field(pc);
    line.put_hex_field(sr);
    line.put(b"\n");
    line.len()
}

// The last line: the run's end, steps, clock, one by one like the fields of a step's line.
pub fn end_line(out: &mut [u8], end: End, steps: u64, clock: u64) -> usize
    ensures { (result ≡ length (end_line end steps clock)) × ((result ≤ 64) × (out.new ≡ sets out.old 0 (end_line end steps clock))) }
{
    let mut line = Line::new(out);
    line.put(&[end.letter(), b'\t']);
    line.put_decimal(steps);
    line.put(b"\t");
    line.put_decimal(clock);
    line.put(b"\n");
    line.len()
}

// A refusal: E, number, line.
pub fn refusal_line(out: &mut [u8], refused: SheetRefusal) -> usize
    ensures { (result ≡ length (refusal_line refused.refusal refused.line)) × ((result ≤ 64) × (out.new ≡ sets out.old 0 (refusal_line refused.refusal refused.line))) }
{
    let mut line = Line::new(out);
    line.put(b"E\t");
    line.put_decimal(u64::from(u8::from(refused.refusal)));
    line.put(b"\t");
    line.put_decimal(refused.line);
    line.put(b"\n");
    line.len()
}

// The header line: step kind clock pc sr.
pub fn header_line(out: &mut [u8]) -> usize
    ensures { (result ≡ 22) × (out.new ≡ sets out.old 0 header_line) }
{
    let mut line = Line::new(out);
    line.put(b"step\tkind\tclock\tpc\tsr\n");
    line.len()
}
