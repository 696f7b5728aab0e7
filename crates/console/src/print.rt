// Fields of a line, put on what is written to: each but the first after a space, the line ended by a newline. Each function answers why
// a write failed. Where none did, its contract says which bytes were put, for every writer that is known to hold what it is given.
ghost use Rattle.std.specs.Prelude.{◌∷◌, [], ◌++◌, codes, OnOk};
ghost use Rattle.std.specs.Io.KnownBytes.{Appends};
ghost use Rattle.std.specs.Fmt.{decimal};
ghost use Rattle.console.specs.Fields.{word_digits, hex_digits};

use std::io;
use std::io::Write;

// Bytes as they are.
pub fn text<W: Write>(out: &mut W, t: &[u8]) -> io::Result<()>
    ensures { OnOk result (Appends (W.contents out.old) (W.contents out.new) t.now) }
{
    out.write_all(t)
}

// The end of the line.
pub fn end_line<W: Write>(out: &mut W) -> io::Result<()>
    ensures { OnOk result (Appends (W.contents out.old) (W.contents out.new) (10 ∷ [])) }
{
    text(out, b"\n")
}

// The line of what cannot be read or done: a question mark.
pub fn unknown<W: Write>(out: &mut W) -> io::Result<()>
    ensures { OnOk result (Appends (W.contents out.old) (W.contents out.new) (codes "?" ++ 10 ∷ [])) }
{
    text(out, b"?\n")
}

// A word: four hexadecimal digits.
#[tactic(auto, using(crate::proofs::Words::word_padded))]
pub fn word<W: Write>(out: &mut W, w: u16) -> io::Result<()>
    ensures { OnOk result (Appends (W.contents out.old) (W.contents out.new) (word_digits w)) }
{
    write!(out, "{w:04x}")
}

// A word after a space.
#[tactic(auto, using(crate::proofs::Words::word_padded))]
pub fn space_word<W: Write>(out: &mut W, w: u16) -> io::Result<()>
    ensures { OnOk result (Appends (W.contents out.old) (W.contents out.new) (32 ∷ word_digits w)) }
{
    write!(out, " {w:04x}")
}

// A number after a space, hexadecimal.
pub fn space_hex<W: Write>(out: &mut W, n: u64) -> io::Result<()>
    ensures { OnOk result (Appends (W.contents out.old) (W.contents out.new) (32 ∷ hex_digits n)) }
{
    write!(out, " {n:x}")
}

// A number after a space, decimal.
pub fn space_decimal<W: Write>(out: &mut W, n: u64) -> io::Result<()>
    ensures { OnOk result (Appends (W.contents out.old) (W.contents out.new) (32 ∷ decimal n)) }
{
    write!(out, " {n}")
}

// A letter after a space.
pub fn space_letter<W: Write>(out: &mut W, letter: u8) -> io::Result<()>
    ensures { OnOk result (Appends (W.contents out.old) (W.contents out.new) (32 ∷ letter ∷ [])) }
{
    text(out, &[b' ', letter])
}

// A refusal: E and its number.
pub fn refusal<W: Write>(out: &mut W, number: u8) -> io::Result<()>
    ensures { OnOk result (Appends (W.contents out.old) (W.contents out.new) (codes " E " ++ decimal number)) }
{
    write!(out, " E {number}")
}
