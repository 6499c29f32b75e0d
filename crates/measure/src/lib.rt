// What is measured of a text: the values of its numbers and the sizes of its code.
#![tactic(auto)]

pub mod size;
pub mod value;
