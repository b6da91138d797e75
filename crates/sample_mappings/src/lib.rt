// A sample of what the laws shut out. All that a mapping's calls promise is proved of these functions, and yet they make no mapping:
// no row of bits is read as a value. To declare that they do, as the edit in must-fail/ does, is refused.
#![tactic(auto)]

ghost use Rattle.std.specs.Prelude.{◌≡◌, true};
ghost use Rattle.formula.specs.Boolean.{words_of};
ghost use Rattle.mapping.specs.Forms.{members, shape_of};
ghost use Rattle.mapping.specs.Meanings.{Lawful};
ghost use Rattle.mapping.specs.Memory.{flat, over};
ghost use Rattle.sample_mappings.specs.Contradicting.{contradicting};

use arrayvec::ArrayVec;
use encodings::{Listed, write_clause, write_form};
use formula::Sign;
use mapping::{AXIOM_WORDS, Choice, FORM_LITERALS, Mapping, Shape, in_sizes};

// The sample whose axioms contradict each other.
#[derive(Clone, Copy, Debug, PartialEq, Eq)]
pub struct Contradicting;

// The laws do not hold of it, so nothing that is proved of every mapping says anything of a catalogue that it would empty.
pub fn is_no_mapping() -> bool
    ensures answer { result ≡ true }
    ensures none { Lawful contradicting → ⊥ }
{
    true
}

fn width(size: u32) -> u32
    ensures { result ≡ contradicting.width size }
{
    if in_sizes(size) { 1 } else { 0 }
}

fn write_axioms(size: u32, memory: &mut [i32; AXIOM_WORDS]) -> usize
    ensures count { result ≡ words_of (contradicting.axioms size) }
    ensures memory { memory.new ≡ over (flat (contradicting.axioms size)) memory.old }
{
    if !in_sizes(size) {
        return 0;
    }
    let count = write_clause(&[1], memory);
    count + write_clause(&[-1], &mut memory[count..])
}

// Every value would be the one Boolean.
impl Listed for Contradicting {
    ghost use Rattle.std.specs.Prelude.{[], ◌∷◌, pos, refl};

    ghost list = { λ m i. pos 1 ∷ [] };

    ghost narrow = { λ m i s v. refl };

    fn literals(&self, choice: Choice) -> ArrayVec<i32, FORM_LITERALS> {
        let mut literals = ArrayVec::new();
        literals.push(1);
        literals
    }
}

fn form(size: u32, sign: Sign, value: u32, places: &mut [i32; FORM_LITERALS]) -> Shape
    ensures shape { result ≡ shape_of (contradicting.form size sign value) }
    ensures places { places.new ≡ over (members (contradicting.form size sign value)) places.old }
{
    write_form(&Contradicting, size, sign, value, places)
}

// Nothing is read, whatever the bits are.
fn read(size: u32, bits: &[u8]) -> Option<u32>
    ensures { result ≡ contradicting.reading size bits.now }
{
    None
}
