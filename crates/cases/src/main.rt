// Executed cases of the whole machine. The file stdin beside src/ is a script of cases; what the machine answers to each call is
// printed, a line each. The file stdout has what document 01 says that it answers: the separate model wrote it from the same script.
//
// A line of the script is a letter and fields: hexadecimal numbers, each after one space. A line that begins with # is repeated.
//
// W            a new world: memory 0, document 01's layout, no stamps, no records, nothing but 0 in the state, previous address FFFE
// L a b c d e  layout: code start and end, data start and end, service address
// M a w..      words in memory, from the even address a on
// N n          how many bytes of the memory's 65,538 a call is lent
// A s..   a    stamps put behind the timetable's last; an empty timetable
// F s d n      n stamps put there: s, s + d, ..
// V s..   v    stamps put behind the trace's last; an empty trace, stamps and words
// U w..        words put behind the trace's last
// J s d n      n trace stamps put there: s, s + d, ..
// Y w d n      n trace words put there: w, w + d, .. of 16 bits
// R n w        register n
// P a          previous address
// C n          clock
// Q s     q    slot; an empty slot
// D s     d    alarm; no alarm
// H a n   h    a visit is held: its previous address and age, its registers 0 but for GIE; none is held
// K n w        register n of the saved copy
// Z       z    halted; running
// S            start, printed; where it is refused the machine stays as it was
// T            step, printed
// G n          run with budget n, printed
// G n a        run with budget n and stop address a, printed
//
// A printed line has the letter, the answer (E and a number for a refusal), the state, and two sums of all 65,538 bytes. What
// cannot be read, or has no room in its list, is answered by a question mark.
#![tactic(auto)]

mod call;
mod play;
mod show;

use console::input::read_whole;
use std::io;

// The script is read whole and obeyed line by line.
fn main(rt: HostRuntime) -> io::Result<()> {
    let mut script = [0u8; 131072];
    let mut out = io::writer(&rt);
    let n = read_whole(&rt, &mut out, &mut script)?;
    play::play(&mut out, &script[..n])
}
