// The language of sequences: its words, its forms on a sheet, and what a well-formed text is.
#![tactic(auto)]

pub mod house;
pub mod line;
pub mod names;
pub mod view;
