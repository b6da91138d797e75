// Where the Booleans of a declared variable lie.

// The size of a variable, and the number of Booleans before its own; by default no variable, before every Boolean.
#[derive(Clone, Copy, Debug, Default, PartialEq, Eq)]
pub struct Place {
    pub size: u32,
    pub start: u32,
}
