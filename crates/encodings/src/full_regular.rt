// The mapping FR: a Boolean for each value but the first says "this value or more".
// kept: `as` from or to usize and i32, which have no From; each is proved to lose nothing.
ghost use Rattle.std.specs.Prelude.{◌≡◌, ◌<◌, ◌≤◌};
ghost use Rattle.encodings.specs.FullRegular.{at_least, less_than, bounds, full_regular};
ghost use Rattle.encodings.specs.Levels.{full_regular_lawful, bounds_narrow};

use super::clauses::write_clause;
use super::listed::{Listed, write_form};
use arrayvec::ArrayVec;
use formula::Sign;
use mapping::{AXIOM_WORDS, Choice, FORM_LITERALS, Mapping, Shape, Size, in_sizes};

#[derive(Clone, Copy, Debug, PartialEq, Eq)]
pub struct FullRegular;

// "Value j or more."
fn at_least(j: u32) -> i32
    requires { (1 < j) × (j ≤ 64) }
    ensures { result ≡ at_least j }
{
    (j - 1) as i32
}

// "Less than value j."
fn less_than(j: u32) -> i32
    requires { (1 < j) × (j ≤ 64) }
    ensures { result ≡ less_than j }
{
    -at_least(j)
}

// The bounds of a value.
impl Listed for FullRegular {
    ghost list = { bounds };

    ghost narrow = { bounds_narrow };

    fn literals(&self, choice: Choice) -> ArrayVec<i32, FORM_LITERALS> {
        let Choice { size, value } = choice;
        let mut bounds = ArrayVec::new();
        if value == 1 {
            bounds.push(less_than(2));
        } else if value == size {
            bounds.push(at_least(size));
        } else {
            bounds.push(at_least(value));
            bounds.push(less_than(value + 1));
        }
        bounds
    }
}

impl Mapping for FullRegular {
    ghost meaning = { full_regular };

    ghost lawful = { full_regular_lawful };

    fn width(&self, size: u32) -> u32 {
        if in_sizes(size) { size - 1 } else { 0 }
    }

    fn axioms(&self, size: u32, memory: &mut [i32; AXIOM_WORDS]) -> usize {
        let Some(size) = Size::new(size) else {
            return 0;
        };
        // kept: tried over chunks_exact_mut(3), after which nothing is known of the words (`returns-clause-memory` stayed open).
        let mut count = 0;
        for j in 2..size.count {
            // A link has three words, its end among them.
            let room = &mut memory[count..count + 3];
            count += write_clause(&[less_than(j + 1), at_least(j)], room);
        }
        count
    }

    fn form(&self, size: u32, sign: Sign, value: u32, places: &mut [i32; FORM_LITERALS]) -> Shape {
        write_form(self, size, sign, value, places)
    }

    fn reading(&self, size: u32, bits: &[u8]) -> Option<u32> {
        if !in_sizes(size) || bits.len() != (size - 1) as usize {
            return None;
        }
        let ones = bits.iter().take_while(|bit| **bit == 1).count();
        bits[ones..]
            .iter()
            .all(|bit| *bit == 0)
            .then_some(ones as u32 + 1)
    }
}
