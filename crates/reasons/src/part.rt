// The lines and fields of a sheet.
use text::text::{head, rest};

// The sheet from a line on. Lines are counted from 1.
pub fn from_line<'a>(sheet: &'a [u8], line: u64) -> &'a [u8] {
    let mut left = sheet;
    for _ in 1..line {
        // Behind the sheet's end there is no line, however many are to be passed.
        if left.is_empty() {
            break;
        }
        left = rest(left, b'\n');
    }
    left
}

// A line of the sheet.
pub fn line_at<'a>(sheet: &'a [u8], line: u64) -> &'a [u8] {
    head(from_line(sheet, line), b'\n')
}

// A field of a line, empty where the line has fewer. Field 0 is the letter.
pub fn field<'a>(line: &'a [u8], n: usize) -> &'a [u8] {
    line.split(|b| *b == b'\t').nth(n).unwrap_or(&[])
}

// The letter of a line, if it begins with a letter of one byte.
pub fn letter(line: &[u8]) -> Option<u8> {
    match head(line, b'\t') {
        [letter] => Some(*letter),
        _ => None,
    }
}
