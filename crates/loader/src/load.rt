// The memory, the timetable and the trace that a sheet sets up: a call for each, since they are lent apart.
ghost use Rattle.std.specs.Prelude.{◌≡◌, [], length, set, option_to_list};
ghost use Rattle.std.proofs.lemmas.List.Edits.{sets};
ghost use Rattle.base.specs.Limits.{memory_bytes};
ghost use Rattle.lines.specs.Line.{parse_line};
ghost use Rattle.definition.specs.Setting.{Trace};
ghost use Rattle.loader.specs.Setup.{pieces, line_stored, memory_from, sheet_memory, stamp_of, sheet_stamps, record_of, sheet_trace};
ghost use Rattle.loader.specs.internal.Record.{with_record};

use base::limits::MEMORY_BYTES;
use base::place::put_at;
use lines::line::{Content, read_line};
use storage::memory::put_word;

// What a line puts into memory: the word of an M line.
fn store_line(mem: &mut [u8; MEMORY_BYTES], line: &[u8])
    ensures { mem.new ≡ line_stored (parse_line line.now) mem.old }
{
    if let Some(Content::Word(address, word)) = read_line(line) {
        put_word(mem, address, word);
    }
}

// The words of the M lines, in order.
fn store_lines(mem: &mut [u8; MEMORY_BYTES], sheet: &[u8])
    ensures { mem.new ≡ memory_from mem.old (pieces sheet.now) }
{
    for line in sheet.split(|b| *b == b'\n') {
        store_line(mem, line);
    }
}

// The sheet's memory: the words of the M lines, and 0 elsewhere.
#[tactic(auto, using(crate::proofs::SetupLaws::sheet_memory_length), unfolding(crate::specs::Setup::sheet_memory))]
pub fn load_memory(mem: &mut [u8; MEMORY_BYTES], sheet: &[u8])
    ensures loaded { mem.new ≡ sheet_memory sheet.now }
    ensures size { memory_bytes ≡ length mem.new }
{
    *mem = [0; MEMORY_BYTES];
    store_lines(mem, sheet);
}

// The stamp of an A line.
fn stamp_of(line: &[u8]) -> Option<u64>
    ensures { option_to_list result ≡ stamp_of (parse_line line.now) [] }
{
    match read_line(line) {
        Some(Content::Stamp(stamp)) => Some(stamp),
        _ => None,
    }
}

// The sheet's timetable: the stamps of the A lines in order, at the front of what is lent, as far as it goes.
#[tactic(auto, unfolding(crate::specs::Setup::sheet_stamps))]
pub fn load_stamps(stamps: &mut [u64], sheet: &[u8])
    ensures { stamps.new ≡ sets stamps.old 0 (sheet_stamps sheet.now) }
{
    // By the index: after `iter_mut` a proof knows no item.
    let mut count = 0;
    for line in sheet.split(|b| *b == b'\n') {
        if let Some(stamp) = stamp_of(line) {
            put_at(stamps, count, stamp);
            count += 1;
        }
    }
}

// The record of a T line: its stamp and its word.
fn record_of(line: &[u8]) -> Option<(u64, u16)>
    ensures { (t : Trace) → record_of (parse_line line.now) t ≡ with_record result t }
{
    match read_line(line) {
        Some(Content::Record(stamp, word)) => Some((stamp, word)),
        _ => None,
    }
}

// The sheet's trace: the records of the T lines in order, their stamps and their words each at the front of what is lent, as far as it goes.
#[tactic(auto, unfolding(crate::specs::Setup::sheet_trace))]
pub fn load_trace(stamps: &mut [u64], words: &mut [u16], sheet: &[u8])
    ensures stamps { stamps.new ≡ sets stamps.old 0 (sheet_trace sheet.now).stamps }
    ensures words { words.new ≡ sets words.old 0 (sheet_trace sheet.now).words }
{
    // By the index, as for a timetable.
    let mut records = 0;
    for line in sheet.split(|b| *b == b'\n') {
        if let Some((stamp, word)) = record_of(line) {
            put_at(stamps, records, stamp);
            put_at(words, records, word);
            records += 1;
        }
    }
}
