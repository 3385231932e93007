// One position: the unit margin of a written row, and the amount of a position of a file.
#![tactic(auto)]

pub mod amount;
pub mod answer;
pub mod margin;
pub mod quantities;
