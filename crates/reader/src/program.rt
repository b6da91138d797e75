// The program: a text in, what is printed out.
ghost use Rattle.std.specs.Prelude.{◌≡◌, ◌++◌, map, IfOk};
ghost use Rattle.std.specs.Option.{option_map};
ghost use Rattle.encodings.specs.Names.{meaning_of};
ghost use Rattle.text_store.specs.Texts.{text_clauses};
ghost use Rattle.text_store.specs.ByteStores.{byte_empty};
ghost use Rattle.text_store.specs.TextStores.{text_terms, terms_of};
ghost use Rattle.workbook.specs.Books.{state_of};
ghost use Rattle.reader.specs.Program.{refused_lines, header, buffer, translated, no_text, by_first, output};
ghost use Rattle.parser.specs.Said.{said_of};

use crate::calls::list_calls;
use crate::faults::LineFault;
use crate::printing::{print_header, print_refusal, print_refusals};
use encodings::{FullRegular, Name};
use mapping::Mapping;
use parser::{Line, read_lines};
use rows::{Answer, Row, make_row};
use std::alloc::{AllocError, Global};
use text_store::TextStore;
use workbook::{Parts, Sheet};

// The most bytes of an input, and the bytes of the store.
pub const INPUT_BYTES: usize = 16_384;

const STORE_BYTES: usize = 32_768;

// Prints what is left of a row that has been made.
fn print_row<M: Mapping + Drop>(
    heap: Global,
    row: Row<M, TextStore>,
    lines: &[Option<Line>],
    answers: &[Answer],
) -> Result<Vec<u8>, AllocError>
    ensures { IfOk result (λ v. v.items ≡ refused_lines 2 (map (option_map said_of) lines.now) answers.now ++ (header (state_of (λ s. s) row.workbook).page.total row.clauses ++ text_clauses (state_of (λ s. s) row.workbook).contents.list)) }
{
    let Row { workbook, clauses } = row;
    let booleans = workbook.booleans();
    let Parts {
        mapping: _,
        store,
        sheet: _,
    } = workbook.finish();
    let mut out = Vec::new(heap);
    print_refusals(heap, &mut out, lines, answers)?;
    let mut text = String::new(heap);
    print_header(&mut text, booleans, clauses)?;
    out.extend_from_slice(text.as_bytes())?;
    out.extend_from_slice(store.held())?;
    Ok(out)
}

// An empty text store.
fn make_store(heap: Global) -> Result<TextStore, AllocError>
    ensures { IfOk result (λ s. (s ≡ byte_empty buffer) × (terms_of s ≡ text_terms 32768)) }
{
    let bytes = vec![in heap; 0u8; STORE_BYTES]?;
    Ok(TextStore::new(bytes))
}

// Translates lines under a mapping: their calls are made as one row on a new workbook over a text store.
fn translate_lines<M: Mapping + Drop>(
    heap: Global,
    mapping: M,
    lines: &[Option<Line>],
) -> Result<Vec<u8>, AllocError>
    ensures { IfOk result (λ v. v.items ≡ translated M.Mapping.meaning (map (option_map said_of) lines.now)) }
{
    let calls = list_calls(heap, lines)?;
    let mut answers = vec![in heap; Ok(0); calls.len()]?;
    let parts = Parts {
        mapping,
        store: make_store(heap)?,
        sheet: Sheet::new(heap)?,
    };
    let row = make_row(1, parts, calls.as_slice(), answers.as_mut_slice()).unwrap();
    print_row(heap, row, lines, answers.as_slice())
}

// Translates lines under the mapping of a name.
// kept: a match on the names that there are, since each brings a mapping of a type of its own.
fn translate_named(heap: Global, name: Name, lines: &[Option<Line>]) -> Result<Vec<u8>, AllocError>
    ensures { IfOk result (λ v. v.items ≡ translated (meaning_of name) (map (option_map said_of) lines.now)) }
{
    match name {
        Name::FullRegular => translate_lines(heap, FullRegular, lines),
    }
}

// What is printed where no text is read.
fn refuse_text(heap: Global) -> Result<Vec<u8>, AllocError>
    ensures { IfOk result (λ v. v.items ≡ no_text) }
{
    let mut text = String::new(heap);
    print_refusal(&mut text, 1, LineFault::Line)?;
    Ok(text.into_bytes())
}

// The first line names the mapping.
// kept: one match on first line and rest leaves its last arm, four kinds of first lines, to be proved by hand; here none is.
fn translate_from(
    heap: Global,
    first: &Option<Line>,
    lines: &[Option<Line>],
) -> Result<Vec<u8>, AllocError>
    ensures { IfOk result (λ v. v.items ≡ by_first (option_map said_of first.now) (map (option_map said_of) lines.now)) }
{
    match first {
        Some(Line::Mapping(name)) => translate_named(heap, *name, lines),
        _ => refuse_text(heap),
    }
}

// What the program prints for an input, which is all that it does.
pub fn translate_text(heap: Global, input: &[u8]) -> Result<Vec<u8>, AllocError>
    ensures { IfOk result (λ v. v.items ≡ output input.now) }
{
    if input.len() > INPUT_BYTES {
        return refuse_text(heap);
    }
    let lines = read_lines(heap, input)?;
    match lines.as_slice() {
        [first, rest @ ..] => translate_from(heap, first, rest),
        [] => refuse_text(heap),
    }
}
