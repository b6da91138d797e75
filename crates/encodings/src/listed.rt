// Forms by a list of literals for each value.
ghost use Rattle.std.specs.Prelude.{◌≡◌, ℕ, true, List, ℤ};
ghost use Rattle.formula.specs.Boolean.{local};
ghost use Rattle.formula.specs.Tests.{every};
ghost use Rattle.mapping.specs.Forms.{members, shape_of};
ghost use Rattle.mapping.specs.Meanings.{is_size, is_value};
ghost use Rattle.mapping.specs.Memory.{over};
ghost use Rattle.encodings.specs.ListedForms.{listed_form, signed_literal};

use arrayvec::ArrayVec;
use formula::Sign;
use mapping::{Choice, FORM_LITERALS, Kind, Shape};

// What lists literals for each value of each size.
pub trait Listed {
    ghost list: { ℕ → ℕ → List ℤ };

    // The literals of a value.
    fn literals(&self, choice: Choice) -> ArrayVec<i32, FORM_LITERALS>
        ensures { result.items ≡ list choice.size choice.value };

    // They speak of the Booleans 1 to 127.
    ghost narrow: { (m i : ℕ) → is_size m ≡ true → is_value m i ≡ true → every (local 127) (list m i) ≡ true };
}

// A literal, or its opposite for a minus.
fn signed(sign: Sign, literal: i32) -> i32
    requires { local 127 literal ≡ true }
    ensures { result ≡ signed_literal sign literal }
{
    match sign {
        Sign::Plus => literal,
        Sign::Minus => -literal,
    }
}

// Writes the form of a value that its literals stand for: all of them with a plus, any of their opposites with a minus.
// Out of range it is any of nothing.
pub fn write_form<L: Listed>(
    lists: &L,
    size: u32,
    sign: Sign,
    value: u32,
    places: &mut [i32; FORM_LITERALS],
) -> Shape
    ensures shape { result ≡ shape_of (listed_form L.list size sign value) }
    ensures places { places.new ≡ over (members (listed_form L.list size sign value)) places.old }
{
    let Some(choice) = Choice::new(size, value) else {
        return Shape {
            kind: Kind::AnyOf,
            count: 0,
        };
    };
    let literals = lists.literals(choice);
    // kept: over all places, so as many turns at each call, which need no loop; over the literals alone, or as a copy, it takes twice the time.
    for place in 0..FORM_LITERALS {
        if let Some(literal) = literals.as_slice().get(place) {
            places[place] = signed(sign, *literal);
        }
    }
    Shape {
        kind: Kind::from(sign),
        count: literals.len(),
    }
}
