// Why a line cannot be read, as far as that is told simply.
use crate::part::{field, from_line, letter, line_at};
use crate::reason::{LineText, Place, Reason, Text};
use base::word::is_even;
use text::number::read_hex;
use text::text::{head, holds_byte};

// The line before this one is a G line.
fn follows_budget(sheet: &[u8], line: u64) -> bool {
    line > 1 && letter(line_at(sheet, line - 1)) == Some(b'G')
}

// An M line, line n.
fn word_reason(line: &[u8], n: u64) -> Reason {
    match read_hex(field(line, 1)) {
        Some(address) if !is_even(address) => Reason::quoting(
            Text::Line(LineText::MOdd),
            Place::new(n, 1),
        ),
        _ => Reason::plain(Text::Line(LineText::MForm)),
    }
}

// A line after the first, line n, by its letter.
fn letter_reason(line: &[u8], n: u64) -> Reason {
    match letter(line) {
        Some(b'L') => Reason::plain(Text::Line(LineText::SecondL)),
        Some(b'M') => word_reason(line, n),
        Some(b'A') => Reason::plain(Text::Line(LineText::AForm)),
        Some(b'T') => Reason::plain(Text::Line(LineText::TForm)),
        Some(b'G') => Reason::plain(Text::Line(LineText::GForm)),
        _ => Reason::plain(Text::Line(LineText::NoLetter)),
    }
}

// Line n, which a newline ends.
fn whole_reason(line: &[u8], n: u64) -> Reason {
    if line.ends_with(b"\r") {
        return Reason::plain(Text::Line(LineText::CarriageReturn));
    }
    if holds_byte(line, b' ') {
        return Reason::plain(Text::Line(LineText::Space));
    }
    if n > 1 {
        return letter_reason(line, n);
    }
    if letter(line) == Some(b'L') {
        return Reason::plain(Text::Line(LineText::LForm));
    }
    Reason::plain(Text::Line(LineText::LMissing))
}

// Why a line of the sheet cannot be read.
pub fn line_reason(sheet: &[u8], line: u64) -> Reason {
    let left = from_line(sheet, line);
    if follows_budget(sheet, line) {
        return Reason::plain(Text::Line(LineText::AfterG));
    }
    if left.is_empty() && line < 2 {
        return Reason::plain(Text::Line(LineText::EmptySheet));
    }
    if left.is_empty() {
        return Reason::plain(Text::Line(LineText::GMissing));
    }
    if !holds_byte(left, b'\n') {
        return Reason::plain(Text::Line(LineText::NoNewline));
    }
    whole_reason(head(left, b'\n'), line)
}
