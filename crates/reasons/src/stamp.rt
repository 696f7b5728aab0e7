// Why a stamp is refused, of the timetable or of the trace: each list's lines have a letter of their own.
use crate::part::{field, letter, line_at};
use crate::reason::{Place, Reason, StampText, Text};
use base::limits::{LAST_CLOCK, MOST_STAMPS};
use text::number::read_decimal;

// The lines of a list so far, as many as it takes: how many, and the last stamp's place.
#[derive(Clone, Copy)]
struct Stamps {
    count: usize,
    last: Option<Place>,
}

impl Stamps {
    // With line n, where it has the list's letter.
    fn with(self, list: Option<u8>, line: &[u8], n: u64) -> Stamps {
        if MOST_STAMPS <= self.count || letter(line) != list {
            return self;
        }
        Stamps {
            count: self.count + 1,
            last: Some(Place::new(n, 1)),
        }
    }
}

// The lines of a line's own list that stand before it.
fn stamps_before(sheet: &[u8], line: u64) -> Stamps {
    let none = Stamps {
        count: 0,
        last: None,
    };
    let list = letter(line_at(sheet, line));
    sheet
        .split(|b| *b == b'\n')
        .zip(1..line)
        .fold(none, |seen, (text, n)| seen.with(list, text, n))
}

// Why the stamp of a line is refused.
pub fn stamp_reason(sheet: &[u8], line: u64) -> Reason {
    let before = stamps_before(sheet, line);
    let place = Place::new(line, 1);
    if MOST_STAMPS <= before.count {
        return Reason::quoting(Text::Stamp(StampText::TooManyStamps), place);
    }
    match read_decimal(field(line_at(sheet, line), 1)) {
        None | Some(0) => Reason::plain(Text::Stamp(StampText::StampZero)),
        Some(stamp) if stamp > LAST_CLOCK => Reason::quoting(
            Text::Stamp(StampText::StampLate),
            place,
        ),
        Some(_) => Reason {
            text: Text::Stamp(StampText::StampNotRising),
            first: Some(place),
            second: before.last,
        },
    }
}
