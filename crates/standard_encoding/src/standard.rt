// The mapping S: a Boolean for each value, one of which is on.
// kept: `as` from or to usize and i32, which have no From; each is proved to lose nothing.
ghost use Rattle.std.specs.Prelude.{◌≡◌, suc, ◌+◌, ◌-◌, ◌*◌, ◌≤◌, ◌==◌, [], ◌∷◌, not, true, map, length, position};
ghost use Rattle.std.specs.List.{list_all};
ghost use Rattle.formula.specs.Boolean.{words_of};
ghost use Rattle.formula.specs.Sheets.{numbers};
ghost use Rattle.mapping.specs.Meanings.{is_size};
ghost use Rattle.mapping.specs.Memory.{ended, flat, over};
ghost use Rattle.encodings.specs.Standard.{some_value, not_both, exclusions, standard};
ghost use Rattle.encodings.specs.Values.{value_literal};
ghost use Rattle.encodings.proofs.StandardLaws.{standard_lawful};
ghost use Rattle.standard_encoding.specs.Narrow.{value_narrow};

use arrayvec::ArrayVec;
use encodings::{Listed, write_clause, write_form};
use formula::Sign;
use mapping::{AXIOM_WORDS, Choice, FORM_LITERALS, Mapping, Shape, Size, in_sizes};

// A Boolean for each value, and no other.
#[derive(Clone, Copy, Debug, PartialEq, Eq)]
pub struct Standard;

// A value's own Boolean.
impl Listed for Standard {
    ghost list = { λ m i. value_literal i ∷ [] };

    ghost narrow = { value_narrow };

    fn literals(&self, choice: Choice) -> ArrayVec<i32, FORM_LITERALS> {
        let mut literals = ArrayVec::new();
        literals.push(choice.value as i32);
        literals
    }
}

// Writes the clause that has every value at the front of memory, and answers its words.
fn write_some_value(size: Size, memory: &mut [i32; AXIOM_WORDS]) -> usize
    ensures count { result ≡ size.count + 1 }
    ensures memory { memory.new ≡ over (ended (some_value size.count)) memory.old }
{
    let values = size.count as usize;
    for (place, word) in memory[..values].iter_mut().enumerate() {
        *word = (place + 1) as i32;
    }
    memory[values] = 0;
    values + 1
}

// Writes the exclusions of a value and each that follows it at the front of memory, and answers their words.
fn write_exclusions_of(choice: Choice, memory: &mut [i32]) -> usize
    requires { 3 * (choice.size - choice.value) ≤ length memory.old }
    ensures count { result ≡ 3 * (choice.size - choice.value) }
    ensures memory { memory.new ≡ over (flat (map (not_both choice.value) (numbers (suc choice.value) (choice.size - choice.value)))) memory.old }
{
    let Choice { size, value } = choice;
    let mut count = 0;
    // kept: tried as a fold; that its closure may be called at each turn stayed open (`fold-requires-clause-callable`).
    for later in value + 1..=size {
        let pair = [-(value as i32), -(later as i32)];
        // An exclusion has three words, its end among them.
        count += write_clause(&pair, &mut memory[count..count + 3]);
    }
    count
}

// Writes the exclusions of every two values at the front of memory, and answers their words.
fn write_exclusions(size: Size, memory: &mut [i32]) -> usize
    requires { words_of (exclusions size.count) ≤ length memory.old }
    ensures count { result ≡ words_of (exclusions size.count) }
    ensures memory { memory.new ≡ over (flat (exclusions size.count)) memory.old }
{
    let mut count = 0;
    // kept: tried as a fold; that its closure may be called at each turn stayed open (`fold-requires-clause-callable`).
    for value in 1..size.count {
        let choice = Choice {
            size: size.count,
            value,
        };
        count += write_exclusions_of(choice, &mut memory[count..]);
    }
    count
}

// The place, counted from 0, of the first byte that is no 0.
fn first_on(bits: &[u8]) -> Option<usize>
    ensures { result ≡ position (λ b. not (b == 0)) bits.now }
{
    bits.iter().position(|bit| *bit != 0)
}

// Whether no bit is on.
fn all_off(bits: &[u8]) -> bool
    ensures { result ≡ list_all (λ b. b == 0) bits.now }
{
    bits.iter().all(|bit| *bit == 0)
}

// The place, counted from 1, of the one bit that is on. There is none if no bit is, if two are, or if a byte is no bit.
fn find_one(bits: &[u8]) -> Option<u32>
    requires { is_size (length bits.now) ≡ true }
    ensures { result ≡ standard.reading (length bits.now) bits.now }
{
    let place = first_on(bits)?;
    let alone = bits[place] == 1 && all_off(&bits[place + 1..]);
    alone.then_some(place as u32 + 1)
}

impl Mapping for Standard {
    ghost meaning = { standard };

    ghost lawful = { standard_lawful };

    fn width(&self, size: u32) -> u32 {
        if in_sizes(size) { size } else { 0 }
    }

    fn axioms(&self, size: u32, memory: &mut [i32; AXIOM_WORDS]) -> usize {
        let Some(size) = Size::new(size) else {
            return 0;
        };
        let count = write_some_value(size, memory);
        count + write_exclusions(size, &mut memory[count..])
    }

    fn form(&self, size: u32, sign: Sign, value: u32, places: &mut [i32; FORM_LITERALS]) -> Shape {
        write_form(self, size, sign, value, places)
    }

    fn reading(&self, size: u32, bits: &[u8]) -> Option<u32> {
        if !in_sizes(size) || bits.len() != size as usize {
            return None;
        }
        find_one(bits)
    }
}
