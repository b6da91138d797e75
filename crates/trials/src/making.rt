// Makes sheets at random: mostly lines that are accepted, and some with every kind of fault.
use crate::random::Random;
use std::alloc::{AllocError, Global};
use std::fmt::Write;

// What a sheet has at most: lines, a size, literals of a clause, Booleans; and how many lines of a hundred are spoiled.
#[derive(Clone, Copy)]
pub struct Kind {
    pub lines: usize,
    pub size: usize,
    pub literals: usize,
    pub booleans: usize,
    pub spoiled: usize,
}

// The bytes that lines are made of, and a few that stand in none.
pub const BYTES: &[u8] = b"mds +-:0123456789 \n\r\t\0\xffF";

// Changes a byte of a line, takes one away or puts one in.
fn spoil(random: &mut Random, line: &mut Vec<u8>) -> Result<(), AllocError> {
    let place = random.below(line.len());
    let byte = random.byte_of(BYTES);
    if place >= line.len() {
        return Ok(());
    }
    match random.below(4) {
        0 => line[place] = byte,
        1 => {
            line.remove(place);
        }
        2 => line.insert(place, byte)?,
        _ => line.push(byte)?,
    }
    Ok(())
}

// Writes sheets, and knows the sizes of the variables that a sheet declared.
#[derive(Drop)]
pub struct Maker {
    heap: Global,
    pub random: Random,
    sizes: Vec<usize>,
    booleans: usize,
}

impl Maker {
    pub fn new(heap: Global, seed: u64) -> Maker {
        Maker {
            heap,
            random: Random::new(seed),
            sizes: Vec::new(heap),
            booleans: 0,
        }
    }

    // Adds a number near a lowest and a highest one, now and then with a zero in front.
    fn put_number(
        &mut self,
        line: &mut String,
        lowest: usize,
        highest: usize,
    ) -> Result<usize, AllocError> {
        let number = self.random.near(lowest, highest);
        let zero = if self.random.once_in(20) { "0" } else { "" };
        write!(line, "{zero}{number}")?;
        Ok(number)
    }

    fn put_size(&mut self, line: &mut String, kind: &Kind) -> Result<(), AllocError> {
        let most = kind
            .booleans
            .saturating_sub(self.booleans)
            .saturating_add(1);
        let size = self.put_number(line, 2, kind.size.min(most))?;
        if size > 1 && size < 65 {
            self.sizes.push(size)?;
            self.booleans = self.booleans.saturating_add(size).saturating_sub(1);
        }
        Ok(())
    }

    fn put_literal(&mut self, line: &mut String) -> Result<(), AllocError> {
        line.push_str(if self.random.once_in(2) { " +" } else { " -" })?;
        let variables = self.sizes.len();
        let variable = self.put_number(line, 1, variables)?;
        line.push(':')?;
        let place = variable.saturating_sub(1);
        let size = self.sizes.get(place).copied().unwrap_or(3);
        self.put_number(line, 1, size)?;
        Ok(())
    }

    fn line(&mut self, kind: &Kind) -> Result<String, AllocError> {
        let full = self.booleans >= kind.booleans;
        if self.sizes.is_empty() || !full && self.random.once_in(4) {
            let mut line = String::from_str(self.heap, "d ")?;
            self.put_size(&mut line, kind)?;
            return Ok(line);
        }
        let mut line = String::from_str(self.heap, "s")?;
        for _ in 0..self.random.below(kind.literals.saturating_add(1)) {
            self.put_literal(&mut line)?;
        }
        Ok(line)
    }

    // A sheet of a kind. Now and then its first line is wrong, or its last newline is missing.
    pub fn sheet(&mut self, kind: &Kind) -> Result<Vec<u8>, AllocError> {
        self.sizes.clear();
        self.booleans = 0;
        let first = if self.random.once_in(50) {
            "m F"
        } else {
            "m FR"
        };
        let mut text = first.as_bytes().to_vec(self.heap)?;
        for _ in 0..self.random.below(kind.lines) {
            let mut line = self.line(kind)?.into_bytes();
            if self.random.below(100) < kind.spoiled {
                spoil(&mut self.random, &mut line)?;
            }
            text.push(b'\n')?;
            text.extend_from_slice(line.as_slice())?;
        }
        if !self.random.once_in(4) {
            text.push(b'\n')?;
        }
        Ok(text)
    }
}
