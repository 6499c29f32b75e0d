// From a text to flat code.
#![tactic(auto)]

mod emit;
mod encode;
mod expression;
mod front;
mod group;
mod meaning;
mod process;
mod sheet;
mod site;
mod statement;
mod states;
pub mod translate;
mod walk;
