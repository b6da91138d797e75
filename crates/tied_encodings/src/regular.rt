// The mapping R: a Boolean for each value, tied to FR's bounds.
ghost use Rattle.std.specs.Prelude.{refl};
ghost use Rattle.encodings.specs.Regular.{regular};

use super::names::Named;
use super::tied::Tied;
use encodings::FullRegular;

pub type Regular = Tied<FullRegular>;

impl Named for Regular {
    ghost named = { regular };

    ghost means = { refl };
}
