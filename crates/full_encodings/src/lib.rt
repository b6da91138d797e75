// The mapping FL, which like FR has no Boolean of its own for each value.
#![tactic(auto)]

pub mod full_logarithmic;

pub use full_logarithmic::FullLogarithmic;
