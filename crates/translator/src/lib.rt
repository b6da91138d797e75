// Stores what an entry of a sheet is translated to, all of it or nothing, in any store and under any mapping.
#![tactic(auto)]

pub mod axioms;
pub mod clauses;
mod layout;
mod placed;
pub mod places;
mod product;
pub mod room;

pub use axioms::file_axioms;
pub use clauses::{CLAUSE_LITERALS, file_clause};
pub use places::Place;
pub use room::check_room;
