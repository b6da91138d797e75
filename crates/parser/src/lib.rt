// Reads a text into lines, each with what it says.
#![tactic(auto)]

mod fields;
pub mod lines;

pub use lines::{Line, read_lines};
