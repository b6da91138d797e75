// Rows of calls on a workbook with a larger store than the program's. Of the limit on literals the program can show nothing: 4,096 of
// them are more than 16,384 bytes of input, and more words than its store takes.
use encodings::FullRegular;
use formula::{Literal, Refusal, Sign};
use reference::encodings::Encoding;
use reference::forms;
use reference::lines::Signed;
use reference::refusals::Fault;
use reference::sheet::Sheet;
use reference::tally::{Case, Tally};
use rows::{Answer, Call, Row, make_row};
use std::alloc::{AllocError, Global};
use std::fmt::Write;
use store::Store;
use text_store::TextStore;
use workbook::Parts;

// The bytes of the store.
const BYTES: usize = 1_000_000;

// The words of so many bytes, nine to a word.
const WORDS: i64 = 111_111;

// A literal as the second translator takes it.
// kept: the sign is matched, since neither type is of this crate, and so no From can be written here.
fn signed(literal: &Literal) -> Signed {
    Signed {
        sign: match literal.sign {
            Sign::Plus => forms::Sign::Plus,
            Sign::Minus => forms::Sign::Minus,
        },
        variable: i64::from(literal.variable),
        value: i64::from(literal.value),
    }
}

// Makes a call of the second translator.
fn call(heap: Global, sheet: &mut Sheet, call: &Call) -> Result<(), Fault> {
    match call {
        Call::Declare(size) => sheet.try_declare(i64::from(*size)),
        Call::State(clause) => {
            let literals: Vec<Signed> = clause.iter().map(signed).collect(heap)?;
            sheet.try_state(literals.as_slice())
        }
    }
}

// What the second translator makes of a row, each call a line.
fn wanted(heap: Global, row: &[Call]) -> Result<String, AllocError> {
    let mut sheet = Sheet::new(heap, Encoding::FR, WORDS);
    for (place, step) in (1..).zip(row) {
        let outcome = call(heap, &mut sheet, step);
        sheet.try_note(place, outcome)?;
    }
    sheet.to_string(heap)
}

// Adds the refusals among answers, each with the place of its call.
fn put_refusals(text: &mut String, answers: &[Answer]) -> Result<(), AllocError> {
    for (place, answer) in (1usize..).zip(answers) {
        if let Err(fault) = answer {
            let refusal = Refusal::from(*fault);
            writeln!(text, "c refused {place} {refusal}")?;
        }
    }
    Ok(())
}

// What the library makes of it.
fn made(heap: Global, row: &[Call]) -> Result<Vec<u8>, AllocError> {
    let mut answers = vec![in heap; Ok(0); row.len()]?;
    let parts = Parts {
        mapping: FullRegular,
        store: TextStore::new(vec![in heap; 0u8; BYTES]?),
        sheet: workbook::Sheet::new(heap)?,
    };
    match make_row(1, parts, row, answers.as_mut_slice()) {
        Err(parts) => {
            let Parts {
                mapping: _,
                store: _,
                sheet: _,
            } = parts;
            Ok(Vec::new(heap))
        }
        Ok(row) => {
            let Row { workbook, clauses } = row;
            let booleans = workbook.booleans();
            let Parts {
                mapping: _,
                store,
                sheet: _,
            } = workbook.finish();
            let mut text = String::new(heap);
            put_refusals(&mut text, answers.as_slice())?;
            writeln!(text, "p cnf {booleans} {clauses}")?;
            let mut all = text.into_bytes();
            all.extend_from_slice(store.held())?;
            Ok(all)
        }
    }
}

// Compares what is printed of a row.
fn compare(tally: &mut Tally, row: &[Call]) -> Result<(), AllocError> {
    let wanted = wanted(tally.heap, row)?;
    let made = made(tally.heap, row)?;
    tally.try_compare(&Case {
        input: b"",
        wanted: wanted.as_bytes(),
        made: made.as_slice(),
    })
}

// A step of a row: so many times a variable of a size, or a clause of so many literals.
#[derive(Clone, Copy)]
enum Step {
    Size(u32, u32),
    Literals(u32, usize),
}

// The rows, by their steps.
static ROWS: [[Step; 7]; 4] = [
    [
        Step::Size(1, 2),
        Step::Literals(256, 16),
        Step::Literals(1, 1),
        Step::Literals(1, 0),
        Step::Literals(1, 16),
        Step::Size(1, 2),
        Step::Literals(1, 17),
    ],
    [
        Step::Size(1, 2),
        Step::Literals(255, 16),
        Step::Literals(1, 15),
        Step::Literals(1, 2),
        Step::Literals(1, 1),
        Step::Literals(1, 1),
        Step::Literals(1, 0),
    ],
    [
        Step::Size(1, 2),
        Step::Literals(1022, 4),
        Step::Literals(1, 9),
        Step::Size(1, 2),
        Step::Literals(1, 8),
        Step::Literals(1, 8),
        Step::Size(1, 1),
    ],
    [
        Step::Size(255, 64),
        Step::Literals(300, 1),
        Step::Size(1, 64),
        Step::Literals(469, 0),
        Step::Literals(1, 0),
        Step::Size(1, 2),
        Step::Literals(1, 17),
    ],
];

// The calls of the steps, whose clauses are the front of one.
fn row_of<'a>(
    heap: Global,
    steps: &[Step],
    clause: &'a [Literal],
) -> Result<Vec<Call<'a>>, AllocError> {
    let mut row = Vec::new(heap);
    for step in steps {
        let (times, call) = match *step {
            Step::Size(times, size) => (times, Call::Declare(size)),
            Step::Literals(times, count) => (
                times,
                Call::State(clause.get(..count).unwrap_or(clause)),
            ),
        };
        for _ in 0..times {
            row.push(call)?;
        }
    }
    Ok(row)
}

pub fn run_all(tally: &mut Tally) -> Result<(), AllocError> {
    let literal = Literal {
        variable: 1,
        value: 1,
        sign: Sign::Minus,
    };
    let clause = [literal; 17];
    for steps in ROWS.iter() {
        let row = row_of(tally.heap, steps, &clause)?;
        compare(tally, row.as_slice())?;
    }
    Ok(())
}
