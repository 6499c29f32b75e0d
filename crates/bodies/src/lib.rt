// The bodies of flat code: one instruction, a body, all processes, and what they leave of cells and board.
#![tactic(auto)]

pub mod advance;
mod body;
mod running;
mod step;
mod sweep;
