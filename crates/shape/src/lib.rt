// Whether every line of a sheet is a form of the language, and stands in its place.
#![tactic(auto)]

mod item;
pub mod order;
mod pattern;
mod sort;
