// The unit spread margin of a held and a written row, and whether two rows of a file pair.
#![tactic(auto)]

pub mod limiters;
pub mod out;
pub mod pair;
pub mod spread;
pub mod terms;
