// A sheet in memory that is taken once.
// kept: `as` from or to usize and i32, which have no From; each is proved to lose nothing.
ghost use Rattle.std.specs.Prelude.{◌≡◌, ◌+◌, ◌*◌, ◌<◌, ◌≤◌, length, IfOk, IsOk, vec_len, vec_capacity};
ghost use Rattle.formula.specs.Sheets.{clauses};
ghost use Rattle.formula.specs.Tests.{sum_of, count};
ghost use Rattle.workbook.specs.Checks.{space_answer, size_answer, literal_answer, literals_answer, clause_answer};
ghost use Rattle.workbook.specs.Pages.{empty_page, with_variable, with_clause, literals_of, literals_in, is_clause};

use crate::faults::WorkbookFault;
use formula::{Details, Literal};
use mapping::{AXIOM_WORDS, in_sizes};
use std::alloc::{AllocError, Global};
use translator::{CLAUSE_LITERALS, Place};

// The limits of a sheet.
const MOST_VARIABLES: usize = 255;

const MOST_ENTRIES: usize = 1024;

const MOST_LITERALS: usize = 4096;

// An entry: a variable of a size, or a clause of so many literals.
#[derive(Clone, Copy)]
pub enum Slot {
    Variable(u32),
    Clause(u32),
}

// At most 255 variables, 1,024 entries and 4,096 literals, for which there is memory, and the words in which a mapping hands out axioms.
// The literals of all clauses lie one behind the other, and each slot says how many are its own.
// kept: places beside the slots, since a clause is filed by all of them, lent as one slice.
// kept: literals in one list, cut by counts: the memory is taken once, and a Vec in each clause would allocate in a call that must not.
// kept: ghost fields and no Model: finish promises the whole sheet back, its addresses too, and a Value that has them is no plainer.
#[derive(Drop)]
pub struct Sheet {
    pub(crate) places: Vec<Place>,
    slots: Vec<Slot>,
    literals: Vec<Literal>,
    pub(crate) total: u32,
    pub(crate) memory: Box<[i32; AXIOM_WORDS]>,
    ghost places_kept: { 255 ≤ vec_capacity places },
    ghost slots_kept: { 1024 ≤ vec_capacity slots },
    ghost literals_kept: { 4096 ≤ vec_capacity literals },
    ghost places_few: { vec_len places ≤ 255 },
    ghost slots_few: { vec_len slots ≤ 1024 },
    ghost literals_few: { vec_len literals ≤ 4096 },
    ghost total_few: { total ≤ 127 * vec_len places },
    ghost literals_counted: { sum_of literals_in slots.items ≡ vec_len literals },
    ghost clauses_counted: { count is_clause slots.items + vec_len places ≡ vec_len slots },
}

impl Sheet {
    ghost use Rattle.workbook.specs.Sheets.{page_in};

    // Takes all the memory that a sheet needs.
    pub fn new(heap: Global) -> Result<Sheet, AllocError>
        ensures { IfOk result (λ s. page_in s ≡ empty_page) }
    {
        Ok(Sheet {
            places: Vec::with_capacity(heap, MOST_VARIABLES)?,
            slots: Vec::with_capacity(heap, MOST_ENTRIES)?,
            literals: Vec::with_capacity(heap, MOST_LITERALS)?,
            total: 0,
            memory: Box::new(heap, [0; AXIOM_WORDS])?,
        })
    }

    // Forgets every entry.
    pub(crate) fn clear(&mut self)
        ensures { page_in self.new ≡ empty_page }
    {
        self.places.clear();
        self.slots.clear();
        self.literals.clear();
        self.total = 0;
    }

    // Whether there is room for one more entry, of so many literals.
    fn check_space(&self, literals: usize) -> Result<(), WorkbookFault>
        ensures { result ≡ space_answer (page_in self.now) literals }
    {
        if self.slots.len() >= MOST_ENTRIES || literals > MOST_LITERALS - self.literals.len() {
            return Err(WorkbookFault::SheetFull);
        }
        Ok(())
    }

    // Whether a variable of this size may be declared.
    pub(crate) fn check_size(&self, size: u32) -> Result<(), WorkbookFault>
        ensures { result ≡ size_answer (page_in self.now) size }
    {
        if !in_sizes(size) {
            return Err(WorkbookFault::Size(Details::from(u64::from(size))));
        }
        if self.places.len() >= MOST_VARIABLES {
            return Err(WorkbookFault::NamesSpent);
        }
        self.check_space(0)
    }

    // Whether the literal at this place of a clause names a declared variable and a value of it.
    fn check_literal(&self, number: u64, literal: &Literal) -> Result<(), WorkbookFault>
        ensures { result ≡ literal_answer (page_in self.now).places number literal.now }
    {
        let index = (literal.variable as usize).checked_sub(1);
        let Some(place) = index.and_then(|i| self.places.get(i)) else {
            return Err(WorkbookFault::Stranger(Details::from(number)));
        };
        if !(1..=place.size).contains(&literal.value) {
            return Err(WorkbookFault::Value(Details::from(number)));
        }
        Ok(())
    }

    // Whether every literal names a declared variable and a value of it.
    fn check_literals(&self, literals: &[Literal]) -> Result<(), WorkbookFault>
        ensures { result ≡ literals_answer (page_in self.now).places 1 literals.now }
    {
        for (number, literal) in (1u64..).zip(literals) {
            self.check_literal(number, literal)?;
        }
        Ok(())
    }

    // Whether a clause may be stated: then it is short, and there is room for it.
    pub(crate) fn check_clause(&self, literals: &[Literal]) -> Result<(), WorkbookFault>
        ensures answer { result ≡ clause_answer (page_in self.now) literals.now }
        ensures few { IsOk result → length literals.now ≤ 16 }
        ensures space { IsOk result → length (page_in self.now).entries < 1024 }
        ensures room { IsOk result → literals_of (page_in self.now).entries + length literals.now ≤ 4096 }
    {
        if literals.len() > CLAUSE_LITERALS {
            return Err(WorkbookFault::Long(Details::from(literals.len() as u64)));
        }
        self.check_literals(literals)?;
        self.check_space(literals.len())
    }

    // Adds a variable of this size and so many Booleans, and answers its number.
    pub(crate) fn add_variable(&mut self, size: u32, width: u32) -> u32
        requires few { length (page_in self.old).places < 255 }
        requires space { length (page_in self.old).entries < 1024 }
        requires narrow { width ≤ 127 }
        ensures number { result ≡ length (page_in self.old).places + 1 }
        ensures page { page_in self.new ≡ with_variable (page_in self.old) size width }
    {
        let start = self.total;
        self.places.push_reserved(Place { size, start });
        self.slots.push_reserved(Slot::Variable(size));
        self.total += width;
        self.places.len() as u32
    }

    // Adds a clause, and answers its number: as many entries are clauses as have no place.
    pub(crate) fn add_clause(&mut self, literals: &[Literal]) -> u32
        requires few { length literals.now ≤ 16 }
        requires space { length (page_in self.old).entries < 1024 }
        requires room { literals_of (page_in self.old).entries + length literals.now ≤ 4096 }
        ensures number { result ≡ length (clauses (page_in self.old).entries) + 1 }
        ensures page { page_in self.new ≡ with_clause (page_in self.old) literals.now }
    {
        self.literals.extend_from_slice(literals).unwrap();
        self.slots
            .push_reserved(Slot::Clause(literals.len() as u32));
        (self.slots.len() - self.places.len()) as u32
    }
}
