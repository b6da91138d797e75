// Codes, and rows that are nearly codes: some bits turned, a byte that is no bit, one place too many or too few.
use crate::subject::Subject;
use mapping::Mapping;
use reference::tally::Tally;
use std::alloc::AllocError;

// Changes a byte, where there is one at the place.
// kept: a place stands beside the bits, since other places are tried that lie a step further.
fn change(bits: &mut [u8], place: usize, by: u8) {
    if let Some(bit) = bits.get_mut(place) {
        *bit ^= by;
    }
}

impl<M: Mapping> Subject<M> {
    // Tries a row with a byte changed, and changes it back.
    fn try_change(
        &self,
        tally: &mut Tally,
        bits: &mut [u8],
        place: usize,
        by: u8,
    ) -> Result<(), AllocError> {
        change(bits, place, by);
        self.try_row(tally, bits)?;
        change(bits, place, by);
        Ok(())
    }

    // Tries a row with one bit turned, and then with another one turned too: the next, the one behind that, and those that are half a
    // row and two thirds of a row further.
    fn try_turns(
        &self,
        tally: &mut Tally,
        bits: &mut [u8],
        place: usize,
    ) -> Result<(), AllocError> {
        let width = bits.len();
        change(bits, place, 1);
        self.try_row(tally, bits)?;
        for step in [1, 2, width / 2, width - width / 3] {
            self.try_change(tally, bits, place.saturating_add(step), 1)?;
        }
        change(bits, place, 1);
        Ok(())
    }

    // Tries a row with a byte that is no bit: a 2 or a 3, a high bit set, all bits set.
    fn try_bytes(
        &self,
        tally: &mut Tally,
        bits: &mut [u8],
        place: usize,
    ) -> Result<(), AllocError> {
        for by in [2, 128, 254, 255] {
            self.try_change(tally, bits, place, by)?;
        }
        Ok(())
    }

    // Tries a row with a place more, and with one less at the front and at the end.
    fn try_lengths(&self, tally: &mut Tally, bits: &mut Vec<u8>) -> Result<(), AllocError> {
        for bit in [0, 1] {
            bits.push(bit)?;
            self.try_row(tally, bits.as_slice())?;
            bits.pop();
        }
        if let Some((_, rest)) = bits.as_slice().split_first() {
            self.try_row(tally, rest)?;
        }
        bits.pop();
        self.try_row(tally, bits.as_slice())
    }

    // Tries the Booleans of the values of one code with all others of another code.
    fn try_mixed(&self, tally: &mut Tally, one: &[u8], other: &[u8]) -> Result<(), AllocError> {
        let cut = usize::try_from(self.size).unwrap_or(usize::MAX);
        let front = one.iter().take(cut);
        let bits: Vec<u8> = front
            .chain(other.get(cut..).unwrap_or(other))
            .copied()
            .collect(tally.heap)?;
        self.try_row(tally, bits.as_slice())
    }

    // Tries a code, and the rows near it.
    fn try_near(&self, tally: &mut Tally, code: &[u8]) -> Result<(), AllocError> {
        self.try_row(tally, code)?;
        let mut bits = code.to_vec(tally.heap)?;
        for place in 0..code.len() {
            self.try_turns(tally, bits.as_mut_slice(), place)?;
            self.try_bytes(tally, bits.as_mut_slice(), place)?;
        }
        self.try_lengths(tally, &mut bits)
    }

    // Tries every code, the rows near it, and it mixed with the code before it.
    pub fn try_codes(&self, tally: &mut Tally) -> Result<(), AllocError> {
        let mut before: &[u8] = &[];
        for code in self.readings.codes.iter() {
            let code = code.bits.as_slice();
            self.try_near(tally, code)?;
            self.try_mixed(tally, before, code)?;
            self.try_mixed(tally, code, before)?;
            before = code;
        }
        Ok(())
    }
}
