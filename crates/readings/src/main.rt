// Many sheets read and run. The file stdin beside src/ has a name and a sheet in turn, each ended by the byte '%', so that a sheet
// may hold any other byte, or none. Printed for each: its name, a tab, and the last line that the bench prints for that sheet. The
// file stdout has what the separate model printed from the same sheets.
#![tactic(auto)]

mod reading;

use base::limits::{MEMORY_BYTES, MOST_STAMPS};
use console::input::read_whole;
use reading::Room;
use std::io;

// The sheets are read whole, and played in turn.
fn main(rt: HostRuntime) -> io::Result<()> {
    let mut sheets = vec![in rt.alloc(); 0u8; 524288]?;
    let mut room = Room {
        mem: [0u8; MEMORY_BYTES],
        stamps: [0u64; MOST_STAMPS],
        trace_stamps: [0u64; MOST_STAMPS],
        trace_words: [0u16; MOST_STAMPS],
    };
    let mut out = io::writer(&rt);
    let n = read_whole(&rt, &mut out, &mut sheets)?;
    reading::all(&mut out, &sheets[..n], &mut room)
}
