// The mapping L: a Boolean for each value, tied to FL's digits.
ghost use Rattle.std.specs.Prelude.{refl};
ghost use Rattle.encodings.specs.Logarithmic.{logarithmic};

use super::names::Named;
use super::tied::Tied;
use full_encodings::FullLogarithmic;

pub type Logarithmic = Tied<FullLogarithmic>;

impl Named for Logarithmic {
    ghost named = { logarithmic };

    ghost means = { refl };
}
