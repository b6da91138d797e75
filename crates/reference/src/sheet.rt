// A second translator: Boolean clauses are made as words, counted once they are made, and written as text.
use crate::codings::Coding;
use crate::encodings::Encoding;
use crate::forms::Form;
use crate::lines::{Line, MOST_LITERALS, Signed};
use crate::refusals::{Fault, Refused};
use std::alloc::{AllocError, Global};
use std::fmt::Write;
use std::{fmt, io};

// A variable, and the number of Booleans of the variables before it.
#[derive(Clone, Copy)]
struct Variable {
    coding: Coding,
    before: i64,
}

impl Variable {
    // Moves literals over the variable's own Booleans behind those of the variables before it; a 0 stays.
    fn shift(self, words: &mut [i64]) {
        for word in words {
            *word = match word.signum() {
                1 => word.saturating_add(self.before),
                -1 => word.saturating_sub(self.before),
                _ => 0,
            };
        }
    }

    // The axioms.
    fn axioms(self, heap: Global) -> Result<Vec<i64>, AllocError> {
        let mut words = self.coding.axioms(heap)?;
        self.shift(words.as_mut_slice());
        Ok(words)
    }

    // The form of a literal of the variable.
    fn form(self, literal: &Signed) -> Form {
        let mut form = self.coding.form(literal.value, literal.sign);
        self.shift(&mut form.literals);
        form
    }
}

// How many there are.
fn counted(length: usize) -> i64 {
    i64::try_from(length).unwrap_or(i64::MAX)
}

// Adds the clause of a turn of so many. The last choice turns fastest.
// kept: what the choices behind come to is divided down from form to form, as the wheels of a counter turn.
fn put_clause(
    words: &mut Vec<i64>,
    forms: &[Form],
    turns: usize,
    turn: usize,
) -> Result<(), AllocError> {
    let mut behind = turns;
    for form in forms {
        behind = behind.checked_div(form.choices()).unwrap_or(0);
        let round = turn.checked_div(behind).unwrap_or(0);
        let choice = round.checked_rem(form.choices()).unwrap_or(0);
        words.extend_from_slice(form.chosen(choice))?;
    }
    words.push(0)?;
    Ok(())
}

// Clauses, each ended by a 0, as lines.
fn text_of(heap: Global, words: &[i64]) -> Result<String, AllocError> {
    let mut text = String::new(heap);
    for word in words {
        let end = if *word == 0 { '\n' } else { ' ' };
        write!(text, "{word}{end}")?;
    }
    Ok(text)
}

// What was accepted, in numbers, and what is to be printed.
#[derive(Drop)]
pub struct Sheet {
    heap: Global,
    encoding: Encoding,
    capacity: i64,
    variables: Vec<Variable>,
    booleans: i64,
    entries: usize,
    literals: usize,
    held: i64,
    clauses: usize,
    refusals: String,
    text: String,
}

impl Sheet {
    pub fn new(heap: Global, encoding: Encoding, capacity: i64) -> Sheet {
        Sheet {
            heap,
            encoding,
            capacity,
            variables: Vec::new(heap),
            booleans: 0,
            entries: 0,
            literals: 0,
            held: 0,
            clauses: 0,
            refusals: String::new(heap),
            text: String::new(heap),
        }
    }

    // Enters what a line asks for.
    pub(crate) fn enter(&mut self, line: &Line) -> Result<(), Fault> {
        match line {
            Line::Declare(size) => self.try_declare(*size),
            Line::State(clause) => {
                let literals = clause.literals().ok_or(Refused::Literals(clause.count))?;
                self.try_state(literals)
            }
        }
    }

    // Declares a variable.
    pub fn try_declare(&mut self, size: i64) -> Result<(), Fault> {
        let coding = Coding::new(self.encoding, size);
        if !coding.in_range() {
            return Err(Fault::from(Refused::Size(size)));
        }
        if self.variables.len() > 254 {
            return Err(Fault::from(Refused::Variables));
        }
        if self.entries > 1023 {
            return Err(Fault::from(Refused::Entries));
        }
        let before = self.booleans;
        let variable = Variable { coding, before };
        let axioms = variable.axioms(self.heap)?;
        self.check_room(axioms.as_slice())?;
        self.variables.reserve(1)?;
        self.keep(axioms.as_slice())?;
        self.variables.push(variable)?;
        self.booleans = before.saturating_add(coding.width());
        self.entries = self.entries.saturating_add(1);
        Ok(())
    }

    // The same, but a variable that there is no memory for is lost.
    pub fn declare(&mut self, size: i64) -> Result<(), Refused> {
        self.try_declare(size).or_else(Fault::lost)
    }

    // The variable of a number from 1 on.
    fn variable(&self, number: i64) -> Option<Variable> {
        let place = usize::try_from(number.saturating_sub(1)).ok()?;
        self.variables.get(place).copied()
    }

    // Refuses literals of which one has a fault. The first decides.
    fn check(&self, literals: &[Signed]) -> Result<(), Refused> {
        for (place, literal) in (1..).zip(literals) {
            let variable = self
                .variable(literal.variable)
                .ok_or(Refused::Stranger { place })?;
            if !variable.coding.has(literal.value) {
                return Err(Refused::Value { place });
            }
        }
        Ok(())
    }

    // The form of a literal that has no fault.
    fn form(&self, literal: &Signed) -> Option<Form> {
        Some(self.variable(literal.variable)?.form(literal))
    }

    // In how many ways a choice can be made in each literal's form, and the words of each clause: all have as many as the first.
    fn measure(&self, literals: &[Signed]) -> (usize, usize) {
        let forms = literals.iter().filter_map(|literal| self.form(literal));
        forms.fold((1, 1), |(turns, words): (usize, usize), form| {
            (
                turns.saturating_mul(form.choices()),
                words.saturating_add(form.chosen(0).len()),
            )
        })
    }

    // States a clause.
    pub fn try_state(&mut self, literals: &[Signed]) -> Result<(), Fault> {
        let count = literals.len();
        if count > MOST_LITERALS {
            return Err(Fault::from(Refused::Literals(count)));
        }
        self.check(literals)?;
        let all = self.literals.saturating_add(count);
        if self.entries > 1023 || all > 4096 {
            return Err(Fault::from(Refused::Entries));
        }
        let clauses = self.multiply(literals)?;
        self.check_room(clauses.as_slice())?;
        self.keep(clauses.as_slice())?;
        self.entries = self.entries.saturating_add(1);
        self.literals = all;
        Ok(())
    }

    // The same, but a clause that there is no memory for is lost.
    pub fn state(&mut self, literals: &[Signed]) -> Result<(), Refused> {
        self.try_state(literals).or_else(Fault::lost)
    }

    // The clauses of literals, each ended by a 0. Where there would be many more words than there can be, they are only counted.
    fn multiply(&self, literals: &[Signed]) -> Result<Vec<i64>, Fault> {
        let (turns, each) = self.measure(literals);
        let wanted = counted(turns.saturating_mul(each));
        if wanted > self.capacity.saturating_add(20_000) {
            let left = self.left();
            return Err(Fault::from(Refused::Words { wanted, left }));
        }
        let forms: Vec<Form> = literals
            .iter()
            .filter_map(|literal| self.form(literal))
            .collect(self.heap)?;
        let mut words = Vec::new(self.heap);
        for turn in 0..turns {
            put_clause(&mut words, forms.as_slice(), turns, turn)?;
        }
        Ok(words)
    }

    fn left(&self) -> i64 {
        self.capacity.saturating_sub(self.held)
    }

    // Refuses clauses that there are not words left for.
    fn check_room(&self, words: &[i64]) -> Result<(), Refused> {
        let (wanted, left) = (counted(words.len()), self.left());
        if wanted > left {
            return Err(Refused::Words { wanted, left });
        }
        Ok(())
    }

    // Writes clauses, each ended by a 0. Where there is no memory for them all, none is written.
    fn keep(&mut self, words: &[i64]) -> Result<(), AllocError> {
        self.text.push_str(text_of(self.heap, words)?.as_str())?;
        let clauses = words.iter().filter(|word| **word == 0).count();
        self.held = self.held.saturating_add(counted(words.len()));
        self.clauses = self.clauses.saturating_add(clauses);
        Ok(())
    }

    // Writes a refusal.
    fn write_refusal(&mut self, line: i64, refused: Refused) -> Result<(), AllocError> {
        writeln!(self.refusals, "c refused {line} {refused}")
    }

    // Notes what became of a line: its refusal is printed.
    pub fn try_note(&mut self, line: i64, outcome: Result<(), Fault>) -> Result<(), AllocError> {
        match outcome {
            Ok(()) => Ok(()),
            Err(Fault::Memory(error)) => Err(error),
            Err(Fault::Refused(refused)) => self.write_refusal(line, refused),
        }
    }

    // Notes that a line is refused. What there is no memory for is lost.
    pub fn note(&mut self, line: i64, refused: Refused) {
        let _ = self.write_refusal(line, refused);
    }

    // Adds all that is to be printed. What there is no memory for is lost.
    pub fn print(&self, all: &mut Vec<u8>) {
        let header = format_args!("p cnf {} {}\n", self.booleans, self.clauses);
        let _ = all.extend_from_slice(self.refusals.as_bytes());
        let _ = io::Write::write_fmt(all, header);
        let _ = all.extend_from_slice(self.text.as_bytes());
    }
}

// All that is to be printed.
impl fmt::Display for Sheet {
    fn fmt<W: fmt::Write>(&self, f: &mut fmt::Formatter<W>) -> fmt::Result {
        f.write_str(self.refusals.as_str())?;
        writeln!(f, "p cnf {} {}", self.booleans, self.clauses)?;
        f.write_str(self.text.as_str())
    }
}
