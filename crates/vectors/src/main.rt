// Test vectors: what the instruction, arithmetic and layout layers answer, a line each. The file stdout beside src/ has what
// document 01 says that they answer; it was written by the separate model and by nothing of this repository's crates.
#![tactic(auto)]

mod access;
mod sums;
mod words;

use std::io;

fn main(rt: HostRuntime) -> io::Result<()> {
    let mut out = io::writer(&rt);
    words::around_edges(&mut out)?;
    words::second_words(&mut out)?;
    words::written(&mut out)?;
    words::counted(&mut out)?;
    sums::all(&mut out)?;
    sums::inverted(&mut out)?;
    access::from_each(&mut out)?;
    access::layouts(&mut out)
}
