// A sequence and a tape, from bytes to the lines that are printed.
#![tactic(auto)]

pub mod bench;
pub mod split;
