// The mapping HR: as R, with a minus by FR's bounds.
ghost use Rattle.std.specs.Prelude.{refl};
ghost use Rattle.encodings.specs.HalfRegular.{half_regular};

use super::half_tied::HalfTied;
use super::names::Named;
use encodings::FullRegular;

pub type HalfRegular = HalfTied<FullRegular>;

impl Named for HalfRegular {
    ghost named = { half_regular };

    ghost means = { refl };
}
