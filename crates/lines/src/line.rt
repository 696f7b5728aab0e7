// What a line of the sheet says.
ghost use Rattle.std.specs.Prelude.{◌≡◌};
ghost use Rattle.lines.specs.Line.{span_of, layout_line, word_line, record_line, parse_line};

use base::word::is_even;
use layout::sections::{Layout, Span};
use text::number::{read_decimal, read_hex};
use text::text::{head, rest};

// What a line says: a layout, a word in memory, a stamp of the timetable, a record of the trace by its stamp and its word, the budget.
#[derive(Clone, Copy)]
pub enum Content {
    Layout(Layout),
    Word(u16, u16),
    Stamp(u64),
    Record(u64, u16),
    Budget(u64),
}

// Two hexadecimal fields: a section's start and end.
#[tactic(auto, unfolding(crate::specs::Line::span_of))]
fn read_span(start: &[u8], end: &[u8]) -> Option<Span>
    ensures { result ≡ span_of start.now end.now }
{
    Some(Span {
        start: read_hex(start)?,
        end: read_hex(end)?,
    })
}

// L and the five addresses.
#[tactic(auto, unfolding(crate::specs::Line::layout_line))]
fn layout_line(fields: &[u8]) -> Option<Content>
    ensures { result ≡ layout_line fields.now }
{
    let second = rest(fields, b'\t');
    let third = rest(second, b'\t');
    let fourth = rest(third, b'\t');
    let fifth = rest(fourth, b'\t');
    Some(Content::Layout(Layout {
        code: read_span(head(fields, b'\t'), head(second, b'\t'))?,
        data: read_span(head(third, b'\t'), head(fourth, b'\t'))?,
        service: read_hex(fifth)?,
    }))
}

// M, an even address and a word.
#[tactic(auto, using(text::proofs::Choices::choices), unfolding(crate::specs::Line::word_line))]
fn word_line(fields: &[u8]) -> Option<Content>
    ensures { result ≡ word_line fields.now }
{
    let address = read_hex(head(fields, b'\t'))?;
    let word = read_hex(rest(fields, b'\t'))?;
    if is_even(address) {
        return Some(Content::Word(address, word));
    }
    None
}

// T, a stamp and a word.
#[tactic(auto, unfolding(crate::specs::Line::record_line))]
fn record_line(fields: &[u8]) -> Option<Content>
    ensures { result ≡ record_line fields.now }
{
    Some(Content::Record(
        read_decimal(head(fields, b'\t'))?,
        read_hex(rest(fields, b'\t'))?,
    ))
}

// A line by its letter: A and G take a decimal. Fields are parted by tabs.
#[tactic(auto, using(text::proofs::Choices::choices), unfolding(crate::specs::Line::parse_line, crate::specs::Line::by_letter))]
pub fn read_line(line: &[u8]) -> Option<Content>
    ensures { result ≡ parse_line line.now }
{
    let [letter] = head(line, b'\t') else {
        return None;
    };
    let fields = rest(line, b'\t');
    match *letter {
        b'L' => layout_line(fields),
        b'M' => word_line(fields),
        b'A' => read_decimal(fields).map(Content::Stamp),
        b'T' => record_line(fields),
        b'G' => read_decimal(fields).map(Content::Budget),
        _ => None,
    }
}
