// Standard input, read whole.
ghost use Rattle.std.specs.Prelude.{◌<◌, length, take, IfOk};
ghost use Rattle.std.specs.Io.{ReadsAtMost};
ghost use Rattle.std.specs.Io.KnownBytes.{Consumes, IsAtEnd};

use crate::print;
use std::io;
use std::io::{Read, Write};

// Reads until the buffer is full or the input ends, and answers how many bytes it put there. What fills the buffer may have been
// cut, and is told by a question mark.
pub fn read_whole(rt: &impl Input, out: &mut impl Write, buffer: &mut [u8]) -> io::Result<usize>
    ensures { ReadsAtMost result buffer.new }
{
    let n = read_full(&mut rt.reader(), buffer)?;
    if n == buffer.len() {
        print::unknown(out)?;
    }
    Ok(n)
}

// Reads until the buffer is full or the reader's bytes end, and answers how many it put there: those that the reader had first, and where
// the buffer is not full all of them.
#[tactic(auto, using(crate::proofs::Reading::read_more))]
pub fn read_full<R: Read>(reader: &mut R, buffer: &mut [u8]) -> io::Result<usize>
    ensures bound { ReadsAtMost result buffer.new }
    ensures bytes { IfOk result (λ n.
        Consumes (R.remaining reader.old) (R.remaining reader.new) (take n buffer.new)) }
    ensures end { IfOk result (λ n. n < length buffer.new → IsAtEnd (R.remaining reader.new)) }
{
    let mut done = 0;
    // A loop by hand: `read_to_end` needs the heap, and `read_exact` does not say how many bytes came before the end.
    while done < buffer.len() {
        let n = reader.read(&mut buffer[done..])?;
        if n == 0 {
            return Ok(done);
        }
        done += n;
    }
    Ok(done)
}
