// The calls of a workbook.
ghost use Rattle.std.specs.Prelude.{◌≡◌, length};
ghost use Rattle.workbook.specs.Books.{made_of, state_of};
ghost use Rattle.workbook.specs.Calls.{declare_answer, declared, state_answer, stated};
ghost use Rattle.workbook.specs.Faults.{on_ok};
ghost use Rattle.workbook.specs.States.{new_state};

use crate::faults::WorkbookFault;
use crate::sheet::Sheet;
use formula::Literal;
use mapping::Mapping;
use store::Store;
use translator::{file_axioms, file_clause};

// What a workbook is made of, beside its number.
pub struct Parts<M, S> {
    pub mapping: M,
    pub store: S,
    pub sheet: Sheet,
}

// A sheet, and the store that holds its translation under a mapping.
// kept: made_of and state_of in each contract: a Model's Value would name S.Cell, and to the check that member "is not at hand here".
pub struct Workbook<M, S> {
    book: u32,
    parts: Parts<M, S>,
}

impl<M: Mapping, S: Store> Workbook<M, S> {
    // A workbook of this number over a mapping and a store, which it clears, in the memory of a sheet, which it clears too.
    pub fn new(book: u32, mut parts: Parts<M, S>) -> Workbook<M, S>
        ensures made { made_of M.Mapping.meaning S.Store.terms result ≡ record { book = book; meaning = M.Mapping.meaning; terms = S.Store.terms parts.store } }
        ensures state { state_of S.Store.contents result ≡ new_state (S.Store.contents parts.store) }
    {
        parts.store.clear();
        parts.sheet.clear();
        Workbook { book, parts }
    }

    // Declares a variable of this size, and answers its number.
    pub fn declare(&mut self, size: u32) -> Result<u32, WorkbookFault>
        ensures answer { result ≡ declare_answer (made_of M.Mapping.meaning S.Store.terms self.old) (state_of S.Store.contents self.old) size }
        ensures after { state_of S.Store.contents self.new ≡ on_ok result (state_of S.Store.contents self.old) (declared (made_of M.Mapping.meaning S.Store.terms self.old) (state_of S.Store.contents self.old) size) }
        ensures same { made_of M.Mapping.meaning S.Store.terms self.new ≡ made_of M.Mapping.meaning S.Store.terms self.old }
    {
        let Parts {
            mapping,
            store,
            sheet,
        } = &mut self.parts;
        sheet.check_size(size)?;
        file_axioms(mapping, store, &mut sheet.memory, sheet.total, size)?;
        Ok(sheet.add_variable(size, mapping.width(size)))
    }

    // States a clause of these literals, and answers its number.
    pub fn state(&mut self, literals: &[Literal]) -> Result<u32, WorkbookFault>
        ensures answer { result ≡ state_answer (made_of M.Mapping.meaning S.Store.terms self.old) (state_of S.Store.contents self.old) literals.now }
        ensures after { state_of S.Store.contents self.new ≡ on_ok result (state_of S.Store.contents self.old) (stated (made_of M.Mapping.meaning S.Store.terms self.old) (state_of S.Store.contents self.old) literals.now) }
        ensures same { made_of M.Mapping.meaning S.Store.terms self.new ≡ made_of M.Mapping.meaning S.Store.terms self.old }
    {
        let Parts {
            mapping,
            store,
            sheet,
        } = &mut self.parts;
        sheet.check_clause(literals)?;
        file_clause(mapping, store, sheet.places.as_slice(), literals)?;
        Ok(sheet.add_clause(literals))
    }

    // The number of Booleans of all declared variables.
    pub fn booleans(&self) -> u32
        ensures { result ≡ (state_of S.Store.contents self.now).page.total }
    {
        self.parts.sheet.total
    }

    // The number of clauses that the store holds.
    pub fn stored_clauses(&self) -> u64
        ensures { result ≡ length (state_of S.Store.contents self.now).contents.list }
    {
        self.parts.store.count()
    }

    // The workbook's end: what it was made of comes back.
    pub fn finish(self) -> Parts<M, S>
        ensures { result ≡ self.parts }
    {
        let Workbook { book: _, parts } = self;
        parts
    }
}
