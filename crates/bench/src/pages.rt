// A transcript, filled and written page by page.
use base::limits::MOST_BUDGET;
use clock::trace::Trace;
use layout::sections::Layout;
use std::io;
use std::io::Write;
use transcribe::progress::Transcript;

// Each page but the last has a line at least: the header, one for each step of the largest budget, the end's line.
const MOST_PAGES: u64 = MOST_BUDGET + 2;

// Writes all that is still to be written, or answers why a write failed. Every page of the transcript is the contract of `fill`.
pub fn write_pages(
    out: &mut impl Write,
    transcript: Transcript,
    mem: &mut [u8],
    layout: Layout,
    stamps: &[u64],
    trace: Trace<'_>,
    page: &mut [u8],
) -> io::Result<()> {
    let mut current = transcript;
    for _ in 0..MOST_PAGES {
        let filled = current.fill(mem, layout, stamps, trace, page);
        match filled.written {
            Err(_) | Ok(0) => return Ok(()),
            Ok(count) => out.write_all(&page[..count])?,
        }
        current = filled.transcript;
    }
    Ok(())
}
