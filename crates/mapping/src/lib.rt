// What a mapping from sized variables to Booleans means, and what code may ask of one.
#![tactic(auto)]

ghost use Rattle.std.specs.Prelude.{◌≡◌};
ghost use Rattle.mapping.specs.Forms.{members, shape_of};
ghost use Rattle.mapping.specs.Meanings.{Meaning, Lawful};
ghost use Rattle.mapping.specs.Memory.{flat, over};
ghost use Rattle.formula.specs.Boolean.{words_of};

mod forms;
pub mod limits;
mod moves;

pub use forms::HeldForm;
use formula::Sign;
pub use limits::{Choice, Size, in_sizes, in_values};
pub use moves::move_words;

// Whether a form asks for all of its literals or for one of them.
#[derive(Clone, Copy, Debug, PartialEq, Eq)]
pub enum Kind {
    AllOf,
    AnyOf,
}

// A plus asks for all of a value's literals, a minus for one of their opposites.
impl From<Sign> for Kind {
    ghost use Rattle.std.specs.Prelude.{◌≡◌};
    ghost use Rattle.mapping.specs.Forms.{kind_by};

    ghost from_gives = { λ s k. k ≡ kind_by s };

    fn from(sign: Sign) -> Kind {
        match sign {
            Sign::Plus => Kind::AllOf,
            Sign::Minus => Kind::AnyOf,
        }
    }
}

// The kind of a form and the number of its literals.
// kept: the number stands apart from the literals, since these lie in places that are handed in and keep what is behind them.
#[derive(Clone, Copy, Debug, PartialEq, Eq)]
pub struct Shape {
    pub kind: Kind,
    pub count: usize,
}

// The words that the axioms of one size may have, and the literals that a form may have.
// kept: arrays of these sizes are handed in, since no heap is below; each word behind what is written is promised to stay.
pub const AXIOM_WORDS: usize = 8192;

pub const FORM_LITERALS: usize = 8;

// A mapping is known by its meaning alone, which keeps the laws for every size; code asks for it by these calls.
// Out of range (sizes 2 to 64, values 1 to the size) the answers are 0, empty or none.
// kept: 0 Booleans and any of nothing, and no Option, since a meaning says something of every size.
pub trait Mapping {
    ghost meaning: { Meaning };

    // The number of Booleans of a variable of this size.
    fn width(&self, size: u32) -> u32
        ensures { result ≡ meaning.width size };

    // Writes the axioms of this size in one pass, each clause as its literals and a 0, and answers the words written.
    fn axioms(&self, size: u32, memory: &mut [i32; AXIOM_WORDS]) -> usize
        ensures count { result ≡ words_of (meaning.axioms size) }
        ensures memory { memory.new ≡ over (flat (meaning.axioms size)) memory.old };

    // Writes the literals of the form of a literal with this sign and value.
    fn form(&self, size: u32, sign: Sign, value: u32, places: &mut [i32; FORM_LITERALS]) -> Shape
        ensures shape { result ≡ shape_of (meaning.form size sign value) }
        ensures places { places.new ≡ over (members (meaning.form size sign value)) places.old };

    // The value that a row of bits stands for.
    fn reading(&self, size: u32, bits: &[u8]) -> Option<u32>
        ensures { result ≡ meaning.reading size bits.now };

    ghost lawful: { Lawful meaning };
}
