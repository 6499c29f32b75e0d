// Runs bench on each example file that the arguments name, and prints what it gives.
#![tactic(auto)]

use benchrun::bench::bench;
use std::io::Write;
use std::{env, fs};

// Prints each file's name and what bench prints for it.
fn main(rt: HostRuntime) -> anyhow::Result<()> {
    for name in env::args(&rt)?.skip(1) {
        let input = fs::read(&rt, name.as_str())?;
        let printed = bench(rt.alloc(), &input)?;
        println!(rt; "{name}")?;
        rt.stdout().write_all(&printed)?;
    }
    Ok(())
}
