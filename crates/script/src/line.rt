// A line of the script: a letter, and fields that are hexadecimal numbers, each after one space.
ghost use Rattle.std.specs.Prelude.{◌≡◌, ◌≤◌, take, IfSome, slice_index_or};

// A line has at most eight fields.
const MOST_FIELDS: usize = 8;

// A field has at most sixteen digits.
const MOST_DIGITS: usize = 16;

// The letter, and the fields: the first `count` of the numbers. A count and no Vec: that takes an
// allocator along and may fail at each field. The letter comes last: in front, it sets the numbers off by a byte wherever a line is moved.
#[derive(Clone, Copy)]
pub struct Line {
    numbers: [u64; MOST_FIELDS],
    count: usize,
    pub letter: u8,
    ghost fits: { count ≤ 8 },
}

impl Line {
    // The fields.
    pub fn fields(&self) -> &[u64]
        ensures { result.now ≡ take self.now.count self.now.numbers }
    {
        &self.numbers[..self.count]
    }
}

// A field's number; none where it has no digit, too many, or another byte.
fn number(digits: &[u8]) -> Option<u64> {
    if digits.is_empty() || MOST_DIGITS < digits.len() {
        return None;
    }
    let mut n = 0u64;
    for &b in digits {
        n = n << 4 | u64::from(char::from(b).to_digit(16)?);
    }
    Some(n)
}

// The line, read; none where it cannot be.
pub fn read(text: &[u8]) -> Option<Line>
    ensures { IfSome result (λ l. l.letter ≡ slice_index_or text.now 0 0) }
{
    let mut pieces = text.split(|b| *b == b' ');
    let [letter] = pieces.next()? else {
        return None;
    };
    let mut numbers = [0; MOST_FIELDS];
    // Counted by hand: the count is a part of the answer, and one field too many is refused.
    let mut count = 0;
    for piece in pieces {
        *numbers.get_mut(count)? = number(piece)?;
        count += 1;
    }
    Some(Line {
        letter: *letter,
        numbers,
        count,
    })
}

// The line is one to be repeated.
pub fn is_comment(text: &[u8]) -> bool {
    text.starts_with(b"#")
}
