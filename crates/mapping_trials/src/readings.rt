// Readings of rows of bits.
use crate::subject::Subject;
use mapping::Mapping;
use reference::codings::Coding;
use reference::readings::Readings;
use reference::tally::Tally;
use std::alloc::AllocError;

impl<M: Mapping> Subject<M> {
    // Compares the readings of a row.
    pub fn try_row(&self, tally: &mut Tally, bits: &[u8]) -> Result<(), AllocError> {
        let wanted = self.readings.value(bits);
        self.compare(tally, &bits, &wanted, &self.reading(bits))
    }

    // Every row, where there are not too many.
    pub fn try_all(&self, tally: &mut Tally) -> Result<(), AllocError> {
        for number in 0..self.rows() {
            let bits = self.row(tally.heap, number)?;
            self.try_row(tally, bits.as_slice())?;
        }
        Ok(())
    }

    // Rows of one byte again and again, of every length to one more than any width, and one byte too many.
    fn try_same(&self, tally: &mut Tally, byte: u8) -> Result<(), AllocError> {
        let row = [byte; 129];
        for length in 0..130 {
            self.try_row(tally, row.get(..length).unwrap_or(&row))?;
        }
        Ok(())
    }

    // The codes of another size.
    fn try_other(&self, tally: &mut Tally, size: i64) -> Result<(), AllocError> {
        let coding = Coding::new(self.encoding, size);
        for code in Readings::try_new(tally.heap, coding)?.codes.iter() {
            self.try_row(tally, code.bits.as_slice())?;
        }
        Ok(())
    }

    // Rows that were not made for the size.
    pub fn try_strangers(&self, tally: &mut Tally) -> Result<(), AllocError> {
        for byte in [0, 1, 2, 255] {
            self.try_same(tally, byte)?;
        }
        for size in [2, 3, 4, 5, 7, 8, 9, 16, 17, 32, 33, 63, 64] {
            self.try_other(tally, size)?;
        }
        Ok(())
    }
}
