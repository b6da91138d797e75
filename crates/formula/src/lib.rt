// What is said: signed literals over finite choices, the Boolean clauses that stand for them, and refusals.
#![tactic(auto)]

pub mod refusals;
pub mod signed;

pub use refusals::{Details, Layer, Reason, Refusal};
pub use signed::{Literal, Sign};
