// The names of the mappings, and which Booleans each has.
use std::fmt;

#[derive(Clone, Copy)]
pub enum Encoding {
    S,
    FL,
    L,
    FR,
    R,
    HR,
}

pub const ENCODINGS: [Encoding; 6] = [
    Encoding::S,
    Encoding::FL,
    Encoding::L,
    Encoding::FR,
    Encoding::R,
    Encoding::HR,
];

impl Encoding {
    pub fn name(self) -> &'static str {
        match self {
            Encoding::S => "S",
            Encoding::FL => "FL",
            Encoding::L => "L",
            Encoding::FR => "FR",
            Encoding::R => "R",
            Encoding::HR => "HR",
        }
    }

    // Whether there is a Boolean for each value.
    pub fn has_values(self) -> bool {
        !matches!(self, Encoding::FL | Encoding::FR)
    }

    // Whether there are digits.
    pub fn has_digits(self) -> bool {
        matches!(self, Encoding::FL | Encoding::L)
    }

    // Whether there is a Boolean for each value or more.
    pub fn has_bounds(self) -> bool {
        matches!(self, Encoding::FR | Encoding::R | Encoding::HR)
    }
}

impl fmt::Display for Encoding {
    fn fmt<W: fmt::Write>(&self, f: &mut fmt::Formatter<W>) -> fmt::Result {
        f.write_str(self.name())
    }
}
