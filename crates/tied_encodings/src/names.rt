// Tied mappings by their names.
ghost use Rattle.std.specs.Prelude.{◌≡◌};
ghost use Rattle.mapping.specs.Meanings.{Meaning};

use mapping::Mapping;

// A mapping whose meaning has a name: the check refuses a name that is another's.
pub(crate) trait Named: Mapping {
    ghost named: { Meaning };

    ghost means: { Self.meaning ≡ named };
}
