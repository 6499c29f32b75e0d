// The flat machine: mounting a code, starting it, scanning it and halting it.
#![tactic(auto)]

pub mod law;
pub mod live;
pub mod mounted;
