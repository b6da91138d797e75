// The six mappings at each size, by what each Boolean says of a value. The rows of bits of each value follow from that, and a form has
// the Booleans that tell a value from the others, as they stand in its rows.
use crate::encodings::Encoding;
use crate::forms::{Form, Kind, Sign};
use std::alloc::{AllocError, Global};

// What a Boolean says: this value, this value or more, or a digit with this weight.
#[derive(Clone, Copy)]
enum Saying {
    Value(i64),
    Bound(i64),
    Digit(i64),
}

// A row of bits of a value: the first, or the second of a value that two patterns of digits stand for.
#[derive(Clone, Copy)]
pub(crate) enum Row {
    First,
    Second,
}

// An encoding at a size.
#[derive(Clone, Copy)]
pub struct Coding {
    encoding: Encoding,
    pub size: i64,
}

impl Coding {
    pub fn new(encoding: Encoding, size: i64) -> Coding {
        Coding { encoding, size }
    }

    pub fn in_range(self) -> bool {
        (2..=64).contains(&self.size)
    }

    pub(crate) fn has(self, value: i64) -> bool {
        self.in_range() && (1..=self.size).contains(&value)
    }

    // The digits that it takes to count the values from 0.
    pub fn digits(self) -> u32 {
        let last = self.size.saturating_sub(1);
        i64::BITS.saturating_sub(last.leading_zeros())
    }

    // The patterns of so many digits that are more than the values.
    pub fn spare(self) -> i64 {
        1i64.wrapping_shl(self.digits()).saturating_sub(self.size)
    }

    // The Booleans that say a value.
    fn values(self) -> i64 {
        if self.encoding.has_values() {
            self.size
        } else {
            0
        }
    }

    // The Booleans in all.
    pub fn width(self) -> i64 {
        if !self.in_range() {
            0
        } else if self.encoding.has_digits() {
            self.values().saturating_add(i64::from(self.digits()))
        } else if self.encoding.has_bounds() {
            self.values().saturating_add(self.size).saturating_sub(1)
        } else {
            self.values()
        }
    }

    // What the Boolean of a number says.
    fn saying(self, number: i64) -> Saying {
        let rest = number.saturating_sub(self.values());
        if rest < 1 {
            return Saying::Value(number);
        }
        if !self.encoding.has_digits() {
            return Saying::Bound(rest.saturating_add(1));
        }
        let place = u32::try_from(rest.saturating_sub(1)).unwrap_or(u32::MAX);
        Saying::Digit(2i64.saturating_pow(place))
    }

    // The rows of a value: the spare patterns go to the first values, one to each.
    pub(crate) fn rows(self, value: i64) -> &'static [Row] {
        if self.encoding.has_digits() && value <= self.spare() {
            &[Row::First, Row::Second]
        } else {
            &[Row::First]
        }
    }

    // The pattern of a value in one of its rows: patterns are dealt out in order.
    fn pattern(self, value: i64, row: Row) -> i64 {
        let before = value.saturating_sub(1);
        let first = before.saturating_add(before.min(self.spare()));
        match row {
            Row::Second if value <= self.spare() => first.saturating_add(1),
            _ => first,
        }
    }

    // Whether a Boolean is true in a row of a value.
    // kept: a number, a value and a row are what is asked about, here and below, and make no thing of their own.
    fn bit(self, number: i64, value: i64, row: Row) -> bool {
        match self.saying(number) {
            Saying::Value(i) => value == i,
            Saying::Bound(j) => value >= j,
            Saying::Digit(weight) => self.pattern(value, row) & weight != 0,
        }
    }

    // A Boolean as it stands in the first row of a value.
    fn literal(self, number: i64, value: i64) -> i64 {
        if self.bit(number, value, Row::First) {
            number
        } else {
            number.saturating_neg()
        }
    }

    // Whether a Boolean tells a value from another one.
    fn tells(self, number: i64, value: i64, other: i64) -> bool {
        self.has(other)
            && self.bit(number, value, Row::First) != self.bit(number, other, Row::First)
    }

    // Whether a Boolean tells a value from the one before it or the one behind it.
    fn tells_apart(self, number: i64, value: i64) -> bool {
        self.tells(number, value, value.saturating_sub(1))
            || self.tells(number, value, value.saturating_add(1))
    }

    // Whether a Boolean is the same in both rows of a value.
    fn stays(self, number: i64, value: i64) -> bool {
        self.bit(number, value, Row::First) == self.bit(number, value, Row::Second)
    }

    // The literals of a value among the Booleans that are digits or bounds: the digits that stay, the highest first, or the bounds that
    // tell it apart.
    fn inner(self, value: i64) -> Form {
        let mut list = Form::new(Kind::AllOf);
        let numbers = self.values().saturating_add(1)..=self.width();
        if self.encoding.has_digits() {
            for number in numbers.rev().filter(|number| self.stays(*number, value)) {
                list.put(self.literal(number, value));
            }
        } else {
            for number in numbers.filter(|number| self.tells_apart(*number, value)) {
                list.put(self.literal(number, value));
            }
        }
        list
    }

    // Whether the form of a value with a sign is made of the value's own Boolean.
    // kept: a match on the encoding, here and for the axioms: a table by name, and no step that a closure could stand for.
    fn has_own(self, sign: Sign) -> bool {
        match self.encoding {
            Encoding::S | Encoding::L | Encoding::R => true,
            Encoding::HR => sign == Sign::Plus,
            Encoding::FL | Encoding::FR => false,
        }
    }

    // The form of a value with a sign. A value that there is not has a form of no literals, which is false.
    pub fn form(self, value: i64, sign: Sign) -> Form {
        if !self.has(value) {
            return Form::new(Kind::AnyOf);
        }
        let all = if self.has_own(sign) {
            Form::one(value)
        } else {
            self.inner(value)
        };
        match sign {
            Sign::Plus => all,
            Sign::Minus => all.opposite(),
        }
    }

    // One of the values, and no two of them.
    fn put_choice(self, words: &mut Vec<i64>) -> Result<(), AllocError> {
        words.extend(1..=self.size)?;
        words.push(0)?;
        for j in 1..=self.size {
            for n in j.saturating_add(1)..=self.size {
                words.extend_from_slice(&[j.saturating_neg(), n.saturating_neg(), 0])?;
            }
        }
        Ok(())
    }

    // A bound that is true makes the one before it true.
    fn put_links(self, words: &mut Vec<i64>) -> Result<(), AllocError> {
        for number in self.values().saturating_add(2)..=self.width() {
            words.extend_from_slice(&[number.saturating_neg(), number.saturating_sub(1), 0])?;
        }
        Ok(())
    }

    // Each value's own Boolean is true where all literals of the value are.
    fn put_ties(self, words: &mut Vec<i64>) -> Result<(), AllocError> {
        for value in 1..=self.size {
            let list = self.inner(value);
            for literal in list.members() {
                words.extend_from_slice(&[value.saturating_neg(), *literal, 0])?;
            }
            words.push(value)?;
            words.extend_from_slice(list.opposite().members())?;
            words.push(0)?;
        }
        Ok(())
    }

    // Adds the axioms.
    fn add_axioms(self, words: &mut Vec<i64>) -> Result<(), AllocError> {
        if !self.in_range() {
            return Ok(());
        }
        match self.encoding {
            Encoding::S => self.put_choice(words),
            Encoding::FL => Ok(()),
            Encoding::L => self.put_ties(words),
            Encoding::FR => self.put_links(words),
            Encoding::R | Encoding::HR => {
                self.put_links(words)?;
                self.put_ties(words)
            }
        }
    }

    // The axioms, each ended by a 0.
    // kept: clauses in one list, since a mapping writes them so, and all of its words are compared.
    pub fn axioms(self, heap: Global) -> Result<Vec<i64>, AllocError> {
        let mut words = Vec::new(heap);
        self.add_axioms(&mut words)?;
        Ok(words)
    }

    // Adds the axioms, each ended by a 0. What there is no memory for is lost.
    pub fn put_axioms(self, words: &mut Vec<i64>) {
        let _ = self.add_axioms(words);
    }

    // A row of bits of a value.
    pub(crate) fn bits(self, heap: Global, value: i64, row: Row) -> Result<Vec<u8>, AllocError> {
        (1..=self.width())
            .map(|number| u8::from(self.bit(number, value, row)))
            .collect(heap)
    }
}
