// Makes the calls of a text's lines as one row, and writes what the program prints.
#![tactic(auto)]

mod calls;
pub mod faults;
mod printing;
pub mod program;

pub use faults::LineFault;
pub use program::{INPUT_BYTES, translate_text};
