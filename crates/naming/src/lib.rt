// What is wrong with a text's names: names that are none or not new, words that stand for nothing, and a state behind the last.
#![tactic(auto)]

pub mod fresh;
pub mod known;
pub mod last;
mod spot;
