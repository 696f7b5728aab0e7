// What a line of the script asks for. Each letter has its number of fields, and how large they may be; no other line is a command.
use crate::line::Line;
use crate::world::WORLD_BYTES;
use definition::state::SavedContext;
use definition::stop_address::StopAddress;

// A command. Of words, stamps and records, the numbers stay in the line.
#[derive(Clone, Copy)]
pub enum Command<'a> {
    NewWorld,
    Layout([u16; 5]),
    Words { address: u16, words: &'a [u64] },
    Bytes(usize),
    Stamps(&'a [u64]),
    StampRow(Row),
    NoStamps,
    TraceStamps(&'a [u64]),
    TraceStampRow(Row),
    TraceWords(&'a [u64]),
    TraceWordRow(Row),
    NoTrace,
    Overwrite(Part),
    Start,
    Step,
    Run { stop: StopAddress, budget: u64 },
}

// A row of numbers, `step` apart.
#[derive(Clone, Copy)]
pub struct Row {
    pub first: u64,
    pub step: u64,
    pub count: usize,
}

// A part of the state, and what it becomes.
#[derive(Clone, Copy)]
pub enum Part {
    Register(u8, u16),
    Saved(u8, u16),
    Previous(u16),
    Clock(u64),
    Slot(Option<u64>),
    Alarm(Option<u64>),
    Context(Option<SavedContext>),
    Halted(bool),
}

// A number as a word; none where it has more bits.
fn as_word(n: u64) -> Option<u16> {
    u16::try_from(n).ok()
}

// A number as a byte; none where it has more bits.
fn as_byte(n: u64) -> Option<u8> {
    u8::try_from(n).ok()
}

// A number of one of the sixteen registers.
fn register(n: u64) -> Option<u8> {
    as_byte(n).filter(|r| *r < 16)
}

// Five words.
fn layout(fields: [u64; 5]) -> Option<[u16; 5]> {
    let [a, b, c, d, e] = fields;
    Some([
        as_word(a)?,
        as_word(b)?,
        as_word(c)?,
        as_word(d)?,
        as_word(e)?,
    ])
}

// A row by its three fields.
fn row_of(first: u64, step: u64, count: u64) -> Option<Row> {
    Some(Row {
        first,
        step,
        count: usize::try_from(count).ok()?,
    })
}

// A row of words: its low 16 bits are those of the numbers.
fn word_row(first: u64, step: u64, count: u64) -> Option<Row> {
    row_of(u64::from(as_word(first)?), u64::from(as_word(step)?), count)
}

// One word at least.
fn words(numbers: &[u64]) -> Option<&[u64]> {
    if numbers.is_empty() || numbers.iter().any(|w| as_word(*w).is_none()) {
        return None;
    }
    Some(numbers)
}

// An address and a word at least.
fn words_at(address: u64, numbers: &[u64]) -> Option<Command<'_>> {
    Some(Command::Words {
        address: as_word(address)?,
        words: words(numbers)?,
    })
}

// How many bytes of the memory a call is lent.
fn bytes(n: u64) -> Option<Command<'static>> {
    let n = usize::try_from(n).ok()?;
    if WORLD_BYTES < n {
        return None;
    }
    Some(Command::Bytes(n))
}

impl Part {
    // The line's part; none where it names none, or has another number of fields or one that is too large.
    fn parse(line: &Line) -> Option<Part> {
        match (line.letter, line.fields()) {
            (b'R', &[n, w]) => Some(Part::Register(register(n)?, as_word(w)?)),
            (b'K', &[n, w]) => Some(Part::Saved(register(n)?, as_word(w)?)),
            (b'P', &[a]) => Some(Part::Previous(as_word(a)?)),
            (b'C', &[n]) => Some(Part::Clock(n)),
            (b'Q', &[s]) => Some(Part::Slot(Some(s))),
            (b'q', []) => Some(Part::Slot(None)),
            (b'D', &[s]) => Some(Part::Alarm(Some(s))),
            (b'd', []) => Some(Part::Alarm(None)),
            (b'H', &[previous, age]) => Some(Part::Context(Some(SavedContext {
                previous: as_word(previous)?,
                age: as_byte(age)?,
            }))),
            (b'h', []) => Some(Part::Context(None)),
            (b'Z', []) => Some(Part::Halted(true)),
            (b'z', []) => Some(Part::Halted(false)),
            _ => None,
        }
    }
}

impl<'a> Command<'a> {
    // The line's command; none where it has no command's letter, another number of fields, or one that is too large.
    pub fn parse(line: &'a Line) -> Option<Command<'a>> {
        let fields = line.fields();
        match (line.letter, fields) {
            (b'W', []) => Some(Command::NewWorld),
            (b'L', &[a, b, c, d, e]) => Some(Command::Layout(layout([a, b, c, d, e])?)),
            (b'M', [address, rest @ ..]) => words_at(*address, rest),
            (b'N', &[n]) => bytes(n),
            (b'A', [_, ..]) => Some(Command::Stamps(fields)),
            (b'a', []) => Some(Command::NoStamps),
            (b'F', &[first, step, count]) => Some(Command::StampRow(row_of(first, step, count)?)),
            (b'V', [_, ..]) => Some(Command::TraceStamps(fields)),
            (b'J', &[first, step, count]) => {
                Some(Command::TraceStampRow(row_of(first, step, count)?))
            }
            (b'U', _) => Some(Command::TraceWords(words(fields)?)),
            (b'Y', &[first, step, count]) => {
                Some(Command::TraceWordRow(word_row(first, step, count)?))
            }
            (b'v', []) => Some(Command::NoTrace),
            (b'S', []) => Some(Command::Start),
            (b'T', []) => Some(Command::Step),
            (b'G', &[budget]) => Some(Command::Run {
                stop: StopAddress::Nowhere,
                budget,
            }),
            (b'G', &[budget, address]) => Some(Command::Run {
                stop: StopAddress::At(as_word(address)?),
                budget,
            }),
            _ => Some(Command::Overwrite(Part::parse(line)?)),
        }
    }
}
