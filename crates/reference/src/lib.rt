// Test code: a second implementation of the mappings and of the program, which shares no code with the first, and a count of
// comparisons. Test programs hold the library to it.
#![tactic(auto)]

pub mod codings;
pub mod encodings;
pub mod forms;
pub mod lines;
pub mod program;
pub mod readings;
pub mod refusals;
pub mod sheet;
pub mod tally;
