// Flat code: words, instructions, and the layout.
#![tactic(auto)]

pub mod head;
pub mod instr;
pub mod kind;
pub mod layout;
mod operand;
pub mod words;
