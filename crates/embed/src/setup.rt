// The sheet reader.
ghost use Rattle.definition.specs.Setting.{trace_of};
ghost use Rattle.lentpages.specs.Setup.{setup_room, SheetReturns};

use base::limits::{MEMORY_BYTES, MOST_STAMPS};
use lentpages::setup::read_sheet_lent;

// What a sheet sets up: memory, stamps and records with the count of each, layout, budget. A refusal alters only `line`, which tells its line.
#[unsafe(no_mangle)]
pub extern "C" fn enclave_read_sheet(
    text: &[u8],
    mem: &mut [u8; MEMORY_BYTES],
    stamps: &mut [u64; MOST_STAMPS],
    trace_stamps: &mut [u64; MOST_STAMPS],
    trace_words: &mut [u16; MOST_STAMPS],
    layout: &mut [u16; 5],
    count: &mut u64,
    records: &mut u64,
    budget: &mut u64,
    line: &mut u64,
) -> u8
    ensures { SheetReturns text.now (setup_room mem.old stamps.old (trace_of trace_stamps.old trace_words.old) layout.old count.old records.old budget.old line.old) (setup_room mem.new stamps.new (trace_of trace_stamps.new trace_words.new) layout.new count.new records.new budget.new line.new) result }
{
    read_sheet_lent(
        text,
        mem,
        stamps,
        trace_stamps,
        trace_words,
        layout,
        count,
        records,
        budget,
        line,
    )
}
