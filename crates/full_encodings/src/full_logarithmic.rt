// The mapping FL: the Booleans are binary digits that spell a value.
// kept: `as` from or to usize and i32, which have no From; each is proved to lose nothing.
ghost use Rattle.std.specs.Prelude.{◌≡◌, ◌≤◌};
ghost use Rattle.encodings.specs.Digits.{digit_literal, spelled};
ghost use Rattle.encodings.specs.FullLogarithmic.{pattern, full_logarithmic};
ghost use Rattle.encodings.proofs.Patterns.{full_logarithmic_lawful, pattern_narrow};

use arrayvec::ArrayVec;
use encodings::{Digits, Listed, write_form};
use formula::Sign;
use mapping::{AXIOM_WORDS, Choice, FORM_LITERALS, Mapping, Shape, in_sizes};

#[derive(Clone, Copy, Debug, PartialEq, Eq)]
pub struct FullLogarithmic;

// The digit behind those that are skipped, as 1 or as 0.
// kept: a bit is a number here, as the remainder that it comes from and the definition have it.
fn digit_literal(skipped: u32, bit: u32) -> i32
    requires { skipped ≤ 6 }
    ensures { result ≡ digit_literal skipped bit }
{
    let digit = (skipped + 1) as i32;
    if bit == 1 { digit } else { -digit }
}

// The lowest digits of a number, so many of them and the highest first, as the Booleans behind those that are skipped.
fn spell(skipped: u32, count: u32, number: u32) -> ArrayVec<i32, FORM_LITERALS>
    requires { (skipped ≤ 1) × (count ≤ 6) }
    ensures { result.items ≡ spelled skipped count number }
{
    let mut digits = ArrayVec::new();
    for place in (0..count).rev() {
        digits.push(digit_literal(skipped + place, (number >> place) % 2));
    }
    digits
}

// The pattern of a value: each of the first values leaves its lowest digit out, while there are spare patterns.
impl Listed for FullLogarithmic {
    ghost list = { pattern };

    ghost narrow = { pattern_narrow };

    fn literals(&self, choice: Choice) -> ArrayVec<i32, FORM_LITERALS> {
        let Choice { size, value } = choice;
        let Digits { count, spare } = Digits::of_size(size);
        if value <= spare {
            spell(1, count - 1, value - 1)
        } else {
            spell(0, count, value - 1 + spare)
        }
    }
}

impl Mapping for FullLogarithmic {
    ghost meaning = { full_logarithmic };

    ghost lawful = { full_logarithmic_lawful };

    fn width(&self, size: u32) -> u32 {
        if in_sizes(size) {
            Digits::of_size(size).count
        } else {
            0
        }
    }

    fn axioms(&self, size: u32, memory: &mut [i32; AXIOM_WORDS]) -> usize {
        0
    }

    fn form(&self, size: u32, sign: Sign, value: u32, places: &mut [i32; FORM_LITERALS]) -> Shape {
        write_form(self, size, sign, value, places)
    }

    // Weighs the digits. Two patterns that differ in the lowest digit stand for one value, while there are spare ones.
    fn reading(&self, size: u32, bits: &[u8]) -> Option<u32> {
        let Digits { count, spare } = Digits::of_size(size);
        if !in_sizes(size) || bits.len() != count as usize {
            return None;
        }
        // kept: one loop that sums, and ends at a byte that is no bit; to test all and then sum goes over the bits twice.
        let mut number = 0;
        for (digit, bit) in bits.iter().enumerate() {
            match *bit {
                0 => {}
                1 => number += 1 << digit,
                _ => return None,
            }
        }
        if number / 2 < spare {
            Some(number / 2 + 1)
        } else {
            Some(number + 1 - spare)
        }
    }
}
