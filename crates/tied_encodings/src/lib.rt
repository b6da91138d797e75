// The mappings that tie a Boolean for each value to an inner mapping: L to FL, R and HR to FR.
#![tactic(auto)]

pub mod half_regular;
mod half_tied;
mod inner;
pub mod logarithmic;
mod moves;
mod names;
pub mod regular;
mod tied;
mod ties;

pub use half_regular::HalfRegular;
pub use half_tied::HalfTied;
pub use inner::Inner;
pub use logarithmic::Logarithmic;
pub use regular::Regular;
pub use tied::Tied;
