// A stored code carried through rows of levels, and what is printed of it.
#![tactic(auto)]

mod listing;
pub mod replay;
