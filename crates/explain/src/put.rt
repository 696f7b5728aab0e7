// The parts of a reason, put one behind another. What of a reason would lie past index 240 is left out. That a line ends there at the latest is asked
// of each call, and in no struct around the line: `Wrote` says it of each line that is left, beside what else it says.
ghost use Rattle.std.specs.Prelude.{◌≤◌, length};
ghost use Rattle.explain.specs.internal.Reason.{reason_end, Wrote};

use transcript::line::Line;

// A reason ends here at the latest.
const REASON_END: usize = 240;

// The first n bytes of a text, or all of it.
fn first<'a>(text: &'a [u8], n: usize) -> &'a [u8]
    ensures { length result.now ≤ n }
{
    text.get(..n).unwrap_or(text)
}

// Puts a part of a reason.
fn put_part(line: &mut Line, part: &[u8])
    requires { line.old.filled ≤ reason_end }
    ensures { Wrote line.old line.new }
{
    let room = REASON_END - line.len();
    line.put(first(part, room));
}

// Puts the parts of a reason.
#[tactic(auto, using(crate::proofs::SentenceLaws::wrote_then))]
pub(crate) fn put_parts(line: &mut Line, parts: &[&[u8]])
    requires { line.old.filled ≤ reason_end }
    ensures { Wrote line.old line.new }
{
    for part in parts {
        put_part(line, part);
    }
}
