// The mappings that have a Boolean for each value, tied to an inner mapping's form of it: L and R.
// kept: `as` from or to usize and i32, which have no From; each is proved to lose nothing.
ghost use Rattle.std.specs.Prelude.{◌≡◌, ◌≤◌, map, length};
ghost use Rattle.formula.specs.Boolean.{words_of};
ghost use Rattle.mapping.specs.Forms.{shifted};
ghost use Rattle.mapping.specs.Meanings.{guarded};
ghost use Rattle.mapping.specs.Memory.{flat, over};
ghost use Rattle.encodings.specs.Ties.{inner_list, tie, ties, tied};
ghost use Rattle.encodings.specs.Values.{value_literal};
ghost use Rattle.encodings.proofs.TiedLaws.{tied_lawful};
ghost use Rattle.tied_encodings.specs.Marks.{only};

use super::inner::{Inner, InnerLists};
use super::moves::move_few;
use super::ties::Tie;
use encodings::Listed;
use formula::Sign;
use mapping::{AXIOM_WORDS, Choice, FORM_LITERALS, Mapping, Shape, Size, in_sizes};
use standard_encoding::Standard;

// A Boolean for each value beside an inner mapping, tied to its forms.
#[derive(Clone, Copy, Debug, PartialEq, Eq)]
pub struct Tied<M>(pub M);

// Whether the bit at a place, counted from 1, is on and every other off.
fn is_only(bits: &[u8], place: u32) -> bool
    ensures { result ≡ only 0 place bits.now }
{
    bits.iter().enumerate().all(|(before, bit)| *bit == u8::from(before + 1 == place as usize))
}

impl<M: Inner> Tied<M> {
    // Writes the inner axioms, behind the Booleans of the values, and answers their words.
    fn write_moved(&self, size: Size, memory: &mut [i32; AXIOM_WORDS]) -> usize
        ensures count { result ≡ words_of (M.meaning.axioms size.count) }
        ensures memory { memory.new ≡ over (flat (map (map (shifted size.count)) (M.meaning.axioms size.count))) memory.old }
    {
        let count = self.0.axioms(size.count, memory);
        move_few(&mut memory[..count], size.count);
        count
    }

    // Ties a value to its inner literals at the front of memory, and answers the words.
    fn tie_value(&self, choice: Choice, memory: &mut [i32]) -> usize
        requires { words_of (tie (value_literal choice.value) (inner_list M.meaning choice.size choice.value)) ≤ length memory.old }
        ensures count { result ≡ words_of (tie (value_literal choice.value) (inner_list M.meaning choice.size choice.value)) }
        ensures memory { memory.new ≡ over (flat (tie (value_literal choice.value) (inner_list M.meaning choice.size choice.value))) memory.old }
    {
        let others = InnerLists(self.0).literals(choice);
        let tie = Tie {
            literal: choice.value as i32,
            others: others.as_slice(),
        };
        tie.write(memory)
    }

    // Ties each value at the front of memory, from the first to the last, and answers the words.
    fn write_ties(&self, size: Size, memory: &mut [i32]) -> usize
        requires { words_of (ties M.meaning size.count) ≤ length memory.old }
        ensures count { result ≡ words_of (ties M.meaning size.count) }
        ensures memory { memory.new ≡ over (flat (ties M.meaning size.count)) memory.old }
    {
        let mut count = 0;
        // kept: tried as a fold; that its closure may be called at each turn stayed open (`fold-requires-clause-callable`).
        for value in 1..=size.count {
            let choice = Choice {
                size: size.count,
                value,
            };
            count += self.tie_value(choice, &mut memory[count..]);
        }
        count
    }
}

impl<M: Inner> Mapping for Tied<M> {
    ghost meaning = { guarded (tied M.meaning) };

    ghost lawful = { tied_lawful M.meaning M.tieable };

    // The Booleans of the values, and behind them those of the inner mapping.
    fn width(&self, size: u32) -> u32 {
        if in_sizes(size) {
            size + self.0.width(size)
        } else {
            0
        }
    }

    // The inner axioms, and then the ties.
    fn axioms(&self, size: u32, memory: &mut [i32; AXIOM_WORDS]) -> usize {
        let Some(size) = Size::new(size) else {
            return 0;
        };
        let count = self.write_moved(size, memory);
        count + self.write_ties(size, &mut memory[count..])
    }

    // A value's own Boolean.
    fn form(&self, size: u32, sign: Sign, value: u32, places: &mut [i32; FORM_LITERALS]) -> Shape {
        Standard.form(size, sign, value, places)
    }

    // The inner bits are read, and of the values' bits that value's has to be the only one that is on.
    fn reading(&self, size: u32, bits: &[u8]) -> Option<u32> {
        let size = Size::new(size)?.count;
        let (own, rest) = bits.split_at_checked(size as usize)?;
        let value = self.0.reading(size, rest)?;
        is_only(own, value).then_some(value)
    }
}
