// One sentence on a refused sheet: the line, what is wrong with it, and the number and word of the refusal.
ghost use Rattle.std.specs.Prelude.{◌≡◌, ◌≤◌, length};
ghost use Rattle.explain.specs.Sentence.{line_label, refusal_label, Explains};
ghost use Rattle.explain.specs.internal.Reason.{reason_end};
ghost use Rattle.transcript.specs.Put.{Puts};

use crate::reason::put_reason;
use base::refusal::{Refusal, SheetRefusal};
use reasons::finding::reason_of;
use transcript::line::Line;

// The line of a refusal of the sheet as a whole. Document 01 prints this number, so it is no Option.
const WHOLE_SHEET: u64 = 0;

// Puts the line's number, where it has one.
#[tactic(auto, using(base::proofs::Tests::choices, transcript::proofs::TranscriptLaws::puts_none), unfolding(crate::specs::Sentence::line_label))]
fn put_line(text: &mut Line, line: u64)
    requires { text.old.filled ≤ reason_end }
    ensures { Puts text.old text.new (line_label line) }
{
    if line == WHOLE_SHEET {
        return;
    }
    text.put(b"line ");
    text.put_decimal(line);
    text.put(b": ");
}

// A refusal's number and word, and the newline. Bytes and no `Display`: they are put into a line like its other parts.
#[tactic(auto, using(crate::proofs::SentenceLaws::label_spelled))]
fn label_of(refusal: Refusal) -> &'static [u8]
    ensures label { result.now ≡ refusal_label refusal }
    ensures short { length result.now ≤ 16 }
{
    match refusal {
        Refusal::Map => b" (1 map)\n",
        Refusal::Fence => b" (2 fence)\n",
        Refusal::Timetable => b" (3 timetable)\n",
        Refusal::Frame => b" (4 frame)\n",
        Refusal::Distance => b" (5 distance)\n",
        Refusal::Clock => b" (6 clock)\n",
        Refusal::Line => b" (7 line)\n",
        Refusal::Sheet => b" (8 sheet)\n",
        Refusal::Word => b" (9 word)\n",
        Refusal::Trace => b" (10 trace)\n",
        Refusal::Landmark => b" (11 landmark)\n",
    }
}

// Writes the sentence for a sheet's refusal to the front of a lent buffer, as far as it goes, and answers its length, which may be more than the buffer's.
#[tactic(auto, using(crate::proofs::SentenceLaws::length_line_label))]
pub fn explanation(out: &mut [u8], sheet: &[u8], refused: SheetRefusal) -> usize
    ensures bounded { result ≤ 256 }
    ensures sentence { Explains refused.refusal refused.line out.old out.new result }
{
    let mut text = Line::new(out);
    put_line(&mut text, refused.line);
    put_reason(&mut text, sheet, reason_of(sheet, refused));
    text.put(label_of(refused.refusal));
    text.len()
}
