// The bench program: a sheet from standard input, its transcript to standard output. It only reads, calls and writes.
#![tactic(auto)]

mod pages;

use base::limits::{MEMORY_BYTES, MOST_SHEET_BYTES, MOST_STAMPS};
use clock::trace::Trace;
use console::input::read_full;
use explain::sentence::explanation;
use output::open::open_sheet;
use std::io;
use std::io::{ErrorKind, Write};
use std::process::ExitCode;
use steplines::remaining::Remaining;

// A sheet that is one byte too long is still read whole, so that it is seen to be.
const INPUT_BYTES: usize = MOST_SHEET_BYTES + 1;

// Lines are gathered and written together.
const PAGE_BYTES: usize = 65536;

// The status of a process that a closed pipe ended, as shells count it: 128 and the signal's number.
const READER_GONE: u8 = 128 + 13;

// Says a sentence. Where that fails, there is nobody to be told.
fn complain(errors: &mut impl Write, text: &[u8]) {
    let _ = errors.write_all(text);
}

// On standard error what is wrong with a sheet, where it is refused.
fn explain_refusal(errors: &mut impl Write, page: &mut [u8], text: &[u8], remaining: Remaining) {
    if let Remaining::RefusalLine(refused) = remaining {
        let n = explanation(page, text, refused);
        if let Some(sentence) = page.get(..n) {
            complain(errors, sentence);
        }
    }
}

// A write failed. Where the reader is gone it wants no more: then the process ends quietly. Else a sentence tells.
fn unwritten(errors: &mut impl Write, why: io::Error) -> ExitCode {
    if why.kind() == ErrorKind::BrokenPipe {
        return ExitCode::from(READER_GONE);
    }
    complain(errors, b"bench: standard output cannot be written\n");
    ExitCode::SUCCESS
}

// Reads the sheet whole, and writes all that it leads to. What fails is told on standard error, and by a status only where the reader is gone.
fn main(rt: HostRuntime) -> ExitCode {
    let mut sheet = [0u8; INPUT_BYTES];
    let mut page = [0u8; PAGE_BYTES];
    let mut mem = [0u8; MEMORY_BYTES];
    let mut stamps = [0u64; MOST_STAMPS];
    let mut trace_stamps = [0u64; MOST_STAMPS];
    let mut trace_words = [0u16; MOST_STAMPS];
    let mut out = io::writer(&rt);
    let mut errors = rt.stderr();
    let Ok(n) = read_full(&mut rt.reader(), &mut sheet) else {
        complain(&mut errors, b"bench: standard input cannot be read\n");
        return ExitCode::SUCCESS;
    };
    let text: &[u8] = &sheet[..n];
    let opened = open_sheet(
        text,
        &mut mem,
        &mut stamps,
        &mut trace_stamps,
        &mut trace_words,
    );
    let trace = Trace {
        stamps: &trace_stamps[..opened.records],
        words: &trace_words[..opened.records],
    };
    let written = pages::write_pages(
        &mut out,
        opened.transcript,
        &mut mem,
        opened.layout,
        &stamps[..opened.stamps],
        trace,
        &mut page,
    );
    if let Err(why) = written {
        return unwritten(&mut errors, why);
    }
    explain_refusal(&mut errors, &mut page, text, opened.transcript.remaining);
    ExitCode::SUCCESS
}
