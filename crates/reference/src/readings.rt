// The rows of bits that stand for values.
use crate::codings::Coding;
use std::alloc::{AllocError, Global};

// A row of bits and its value.
#[derive(Drop)]
pub struct Code {
    pub value: i64,
    pub bits: Vec<u8>,
}

// The rows of all values of an encoding at a size.
#[derive(Drop)]
pub struct Readings {
    pub codes: Vec<Code>,
}

impl Readings {
    pub fn try_new(heap: Global, coding: Coding) -> Result<Readings, AllocError> {
        let mut codes = Vec::new(heap);
        if coding.in_range() {
            for value in 1..=coding.size {
                for row in coding.rows(value) {
                    let bits = coding.bits(heap, value, *row)?;
                    codes.push(Code { value, bits })?;
                }
            }
        }
        Ok(Readings { codes })
    }

    // The same, but no rows where there is no memory for them all.
    pub fn new(heap: Global, coding: Coding) -> Readings {
        let none = Readings {
            codes: Vec::new(heap),
        };
        Readings::try_new(heap, coding).unwrap_or(none)
    }

    // The value that a row of bits stands for.
    pub fn value(&self, bits: &[u8]) -> Option<i64> {
        let code = self.codes.iter().find(|code| code.bits.as_slice() == bits)?;
        Some(code.value)
    }
}
