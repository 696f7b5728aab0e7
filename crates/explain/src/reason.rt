// A text with the fields of the sheet that it quotes in the places of its percent signs.
ghost use Rattle.std.specs.Prelude.{◌≤◌};
ghost use Rattle.explain.specs.internal.Reason.{reason_end, Wrote};

use crate::put::put_parts;
use reasons::part::{field, line_at};
use reasons::reason::{Place, Reason};
use text::text::{head, rest};
use transcript::line::Line;

// Puts a text with the quoted fields in the places of its percent signs.
fn put_filled(line: &mut Line, text: &[u8], first: &[u8], second: &[u8])
    requires { line.old.filled ≤ reason_end }
    ensures { Wrote line.old line.new }
{
    let further = rest(text, b'%');
    put_parts(
        line,
        &[
            head(text, b'%'),
            first,
            head(further, b'%'),
            second,
            rest(further, b'%'),
        ],
    );
}

// What a place of the sheet has, nothing where there is no place.
fn quoted<'a>(sheet: &'a [u8], place: Option<Place>) -> &'a [u8] {
    match place {
        Some(place) => field(line_at(sheet, place.line), place.field),
        None => &[],
    }
}

// Puts a reason.
pub(crate) fn put_reason(line: &mut Line, sheet: &[u8], reason: Reason)
    requires { line.old.filled ≤ reason_end }
    ensures { Wrote line.old line.new }
{
    put_filled(
        line,
        reason.text.words(),
        quoted(sheet, reason.first),
        quoted(sheet, reason.second),
    );
}
