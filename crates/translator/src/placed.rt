// The form of a literal, copied from the mapping.
// kept: `as` from or to usize and i32, which have no From; each is proved to lose nothing.
ghost use Rattle.std.specs.Prelude.{◌≡◌, ◌^◌, ◌<◌, ◌≤◌};
ghost use Rattle.arrayvec.specs.ArrayVec.{array_vec_len};
ghost use Rattle.formula.specs.Boolean.{number};
ghost use Rattle.mapping.specs.Forms.{shifted, split, taken};

use arrayvec::ArrayVec;
use mapping::{FORM_LITERALS, Kind};

// A form over its variable's own Booleans, and the number of Booleans before those.
// kept: kind and literals side by side, and no HeldForm within, since few speaks of the literals and what is asked of a form reads both.
#[derive(Drop)]
pub(crate) struct PlacedForm {
    pub(crate) literals: ArrayVec<i32, FORM_LITERALS>,
    pub(crate) start: u32,
    pub(crate) kind: Kind,
    ghost few: { array_vec_len literals ≤ 8 },
}

// kept: by hand, since a kind has no value that goes without saying; a vector of fixed capacity asks for one.
impl Default for PlacedForm {
    fn default() -> PlacedForm {
        PlacedForm {
            literals: ArrayVec::new(),
            start: 0,
            kind: Kind::AnyOf,
        }
    }
}

impl PlacedForm {
    ghost use Rattle.translator.specs.Placed.{form_in};

    // The choices of a form.
    pub(crate) fn split(&self) -> u64
        ensures { result ≡ split (form_in self.now) }
    {
        match self.kind {
            Kind::AllOf => self.literals.len() as u64,
            Kind::AnyOf => 1,
        }
    }

    // The literals that each choice of a form takes.
    pub(crate) fn taken(&self) -> u64
        ensures { result ≡ taken (form_in self.now) }
    {
        match self.kind {
            Kind::AllOf => 1,
            Kind::AnyOf => self.literals.len() as u64,
        }
    }
}

// A literal, moved behind the Booleans before its variable's own.
// kept: mapping's move_words goes over words that lie in memory; here one literal is moved as it is pushed, and none is an end.
pub(crate) fn shift(literal: i32, start: u32) -> i32
    requires { number (shifted start literal) < 2 ^ 31 }
    ensures { result ≡ shifted start literal }
{
    if literal < 0 {
        literal - start as i32
    } else {
        literal + start as i32
    }
}
