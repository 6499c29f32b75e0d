// Translates a sequence, runs it through a tape, both from standard input, and prints a line for each scan.
#![tactic(auto)]

use benchrun::bench::{LIMIT, bench};
use std::io;
use std::io::{Read, Write};

// Reads standard input up to one byte more than an input may have, and prints what it gives. The main of replay differs in two names: one
// function for both would take a reader, a writer, the limit and a closure for these four lines.
fn main(rt: HostRuntime) -> io::Result<()> {
    let mut input = Vec::new(rt.alloc());
    rt.stdin().take(LIMIT as u64 + 1).read_to_end(&mut input)?;
    let printed = bench(rt.alloc(), &input)?;
    rt.stdout().write_all(&printed)
}
