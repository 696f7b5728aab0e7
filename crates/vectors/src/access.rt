// Access: for an instruction's address and a right, y or n for each of some addresses; and which layouts are refused.
use base::refusal::Refusal;
use console::print;
use layout::access::Right;
use layout::sections::Layout;
use std::io;
use std::io::Write;

const FROM: [u16; 7] = [0x4404, 0x8000, 0x8002, 0x8007, 0x8008, 0x8100, 0xfffe];

const ADDRESSES: [u16; 14] = [
    0x0000, 0x4500, 0x7fff, 0x8000, 0x8001, 0x8002, 0x8007, 0x8008, 0x80ff, 0x8100, 0x8103, 0x8104,
    0xfffe, 0xffff,
];

// The layout of document 01's sheet.
fn sheet_layout() -> Layout {
    Layout::from([0x8000, 0x8008, 0x8100, 0x8104, 0x4500])
}

// The letter of an answer, printed as the other fields are, and by no `Display`: the types are another crate's.
fn show_answer(out: &mut impl Write, answer: Result<bool, Refusal>) -> io::Result<()> {
    match answer {
        Ok(true) => print::text(out, b"y"),
        Ok(false) => print::text(out, b"n"),
        Err(_) => print::text(out, b"E"),
    }
}

// The letter of a right, printed like that of an answer.
fn show_right(out: &mut impl Write, right: Right) -> io::Result<()> {
    match right {
        Right::Execute => print::text(out, b" E "),
        Right::Read => print::text(out, b" R "),
        Right::Write => print::text(out, b" W "),
    }
}

fn show(out: &mut impl Write, from: u16, right: Right) -> io::Result<()> {
    print::word(out, from)?;
    show_right(out, right)?;
    for address in ADDRESSES {
        show_answer(out, sheet_layout().access(from, right, address))?;
    }
    print::end_line(out)
}

pub fn from_each(out: &mut impl Write) -> io::Result<()> {
    for from in FROM {
        show(out, from, Right::Execute)?;
        show(out, from, Right::Read)?;
        show(out, from, Right::Write)?;
    }
    Ok(())
}

// The refusal's number, 0 where there is none: this is what is printed.
fn refusal(answer: Result<bool, Refusal>) -> u8 {
    match answer {
        Ok(_) => 0,
        Err(refusal) => u8::from(refusal),
    }
}

fn show_layout(out: &mut impl Write, fields: [u16; 5]) -> io::Result<()> {
    let [a, b, c, d, e] = fields;
    print::word(out, a)?;
    print::space_word(out, b)?;
    print::space_word(out, c)?;
    print::space_word(out, d)?;
    print::space_word(out, e)?;
    let answer = Layout::from(fields).access(0x4404, Right::Execute, 0x8000);
    print::space_decimal(out, u64::from(refusal(answer)))?;
    print::end_line(out)
}

pub fn layouts(out: &mut impl Write) -> io::Result<()> {
    show_layout(out, [0x8000, 0x8008, 0x8100, 0x8104, 0x8007])?;
    show_layout(out, [0x8000, 0x8008, 0x8100, 0x8104, 0x8008])?;
    show_layout(out, [0x8001, 0x8008, 0x8100, 0x8104, 0x4500])?;
    show_layout(out, [0x8008, 0x8008, 0x8100, 0x8104, 0x4500])?;
    show_layout(out, [0x8000, 0x8102, 0x8100, 0x8104, 0x4500])?;
    show_layout(out, [0x8000, 0x8008, 0x8008, 0x8104, 0x4500])?;
    show_layout(out, [0x8100, 0x8104, 0x8000, 0x8100, 0x4500])?;
    show_layout(out, [0x8000, 0x8008, 0x8100, 0x8104, 0x8102])?;
    show_layout(out, [0x0000, 0x0002, 0xfffc, 0xfffe, 0x4500])
}
