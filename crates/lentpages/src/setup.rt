// The sheet reader. What is lent comes apart, as the C interface has it.
ghost use Rattle.definition.specs.Setting.{trace_of};
ghost use Rattle.lentpages.specs.Setup.{setup_room, SheetReturns};

use base::limits::{MEMORY_BYTES, MOST_STAMPS};
use loader::load::{load_memory, load_stamps};
use sheet::reader::read_sheet;
use sheet::trace::load_setup_trace;

// What a sheet sets up: memory, stamps and records with the count of each, layout, budget. A refusal alters only `line`, which tells its line.
#[tactic(auto, using(base::proofs::Tests::choices, base::proofs::Refusals::number_not_zero), unfolding(base::specs::Kept::unless_refused))]
pub fn read_sheet_lent(
    text: &[u8],
    mem: &mut [u8; MEMORY_BYTES],
    stamps: &mut [u64; MOST_STAMPS],
    trace_stamps: &mut [u64; MOST_STAMPS],
    trace_words: &mut [u16; MOST_STAMPS],
    layout: &mut [u16; 5],
    count: &mut u64,
    records: &mut u64,
    budget: &mut u64,
    line: &mut u64,
) -> u8
    ensures { SheetReturns text.now (setup_room mem.old stamps.old (trace_of trace_stamps.old trace_words.old) layout.old count.old records.old budget.old line.old) (setup_room mem.new stamps.new (trace_of trace_stamps.new trace_words.new) layout.new count.new records.new budget.new line.new) result }
{
    match read_sheet(text) {
        Err(refused) => {
            *line = refused.line;
            u8::from(refused.refusal)
        }
        Ok(setup) => {
            load_memory(mem, text);
            load_stamps(stamps, text);
            load_setup_trace(setup, trace_stamps, trace_words, text);
            *layout = setup.layout.into();
            *count = setup.stamps as u64;
            *records = setup.records as u64;
            *budget = setup.budget;
            0
        }
    }
}
