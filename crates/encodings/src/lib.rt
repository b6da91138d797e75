// The mappings from sized variables to Booleans.
#![tactic(auto)]

mod clauses;
pub mod digits;
pub mod full_regular;
mod listed;
pub mod names;

pub use clauses::write_clause;
pub use digits::Digits;
pub use full_regular::FullRegular;
pub use listed::{Listed, write_form};
pub use names::{Name, UnknownName};
