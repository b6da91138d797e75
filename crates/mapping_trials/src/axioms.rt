// Widths, and axioms with all of the memory that they were written to.
use crate::subject::{Subject, filler};
use mapping::{AXIOM_WORDS, Mapping};
use reference::tally::Tally;
use std::alloc::AllocError;

impl<M: Mapping> Subject<M> {
    pub fn try_width(&self, tally: &mut Tally) -> Result<(), AllocError> {
        let made = i64::from(self.mapping.width(self.size));
        self.compare(tally, &(), &self.coding.width(), &made)
    }

    // The number of words, and the words and the memory behind them.
    // kept: forms.rt fills what is behind in the same way, but of places: a function of both is no plainer than two lines.
    pub fn try_axioms(&self, tally: &mut Tally) -> Result<(), AllocError> {
        let heap = tally.heap;
        let words = self.coding.axioms(heap)?;
        let behind = (words.len()..AXIOM_WORDS).map(|place| i64::from(filler(place)));
        let wanted: Vec<i64> = words.iter().copied().chain(behind).collect(heap)?;
        let axioms = self.axioms(heap)?;
        let made: Vec<i64> = axioms
            .memory
            .iter()
            .map(|word| i64::from(*word))
            .collect(heap)?;
        self.compare(
            tally,
            &(),
            &(words.len(), wanted.as_slice()),
            &(axioms.count, made.as_slice()),
        )
    }
}
