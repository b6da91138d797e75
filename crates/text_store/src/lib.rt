// A clause store whose buffer holds its clauses as text.
#![tactic(auto)]

mod fitting;
mod scanning;
mod text_store;
mod writing;

pub use text_store::TextStore;
