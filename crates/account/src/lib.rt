// The account file: bytes to rows, or the refusal that document 01 gives.
#![tactic(auto)]

pub mod accepted;
pub mod bytes;
pub mod checks;
pub mod faults;
pub mod lookup;
pub mod reader;
pub mod rows;
