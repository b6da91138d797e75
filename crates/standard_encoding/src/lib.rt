// The mapping that has a Boolean for each value and no other: S.
#![tactic(auto)]

pub mod standard;

pub use standard::Standard;
