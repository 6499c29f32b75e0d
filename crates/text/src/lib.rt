// A text of forms, one to a line, read from bytes onto a sheet of rows.
#![tactic(auto)]

mod class;
mod filler;
pub mod items;
pub mod law;
pub mod read;
mod reader;
pub mod row;
#[cfg(test)]
mod tests;
