// Lines.
ghost use Rattle.std.specs.Prelude.{◌≡◌, ◌-◌, map, length, take, slice_index, IfOk, if◌then◌else◌, ◌==◌};
ghost use Rattle.std.specs.Option.{option_map};
ghost use Rattle.encodings.specs.Names.{name_of};
ghost use Rattle.parser.specs.Cuts.{given, parts, lines};
ghost use Rattle.parser.specs.Fields.{number_of, literals_of};
ghost use Rattle.parser.specs.Said.{field_of, clause_fields, said, said_of};

use crate::fields::{read_literal, read_number};
use encodings::Name;
use formula::Literal;
use std::alloc::{AllocError, Global};

// What a line says.
#[derive(Debug, PartialEq, Eq, Drop)]
pub enum Line {
    Mapping(Name),
    Declare(u32),
    State(Vec<Literal>),
}

// What stands behind exactly one space.
fn find_field(fields: &[u8]) -> Option<&[u8]>
    ensures { option_map (λ x. x.now) result ≡ field_of fields.now }
{
    fields.strip_prefix(b" ")
}

// The name behind the command m.
fn read_name(fields: &[u8]) -> Option<Name>
    ensures { result ≡ given (field_of fields.now) name_of }
{
    Name::try_from(find_field(fields)?).ok()
}

// The size behind the command d.
fn read_size(fields: &[u8]) -> Option<u32>
    ensures { result ≡ given (field_of fields.now) number_of }
{
    read_number(find_field(fields)?)
}

// Literals with one space between them.
fn read_literals(heap: Global, fields: &[u8]) -> Result<Option<Vec<Literal>>, AllocError>
    ensures { IfOk result (λ o. option_map (λ v. v.items) o ≡ literals_of (parts 32 fields.now)) }
{
    let mut literals = Vec::new(heap);
    for field in fields.split(|byte| *byte == b' ') {
        let Some(literal) = read_literal(field) else {
            return Ok(None);
        };
        literals.push(literal)?;
    }
    Ok(Some(literals))
}

// The literals behind the command s: none at all is the empty clause.
fn read_clause(heap: Global, fields: &[u8]) -> Result<Option<Vec<Literal>>, AllocError>
    ensures { IfOk result (λ o. option_map (λ v. v.items) o ≡ clause_fields fields.now) }
{
    if fields.is_empty() {
        return Ok(Some(Vec::new(heap)));
    }
    match find_field(fields) {
        Some(field) => read_literals(heap, field),
        None => Ok(None),
    }
}

// What a line says, if it can be read: it is a command byte and its fields.
fn read_line(heap: Global, line: &[u8]) -> Result<Option<Line>, AllocError>
    ensures { IfOk result (λ o. option_map said_of o ≡ said line.now) }
{
    match line {
        [b'm', fields @ ..] => Ok(read_name(fields).map(Line::Mapping)),
        [b'd', fields @ ..] => Ok(read_size(fields).map(Line::Declare)),
        [b's', fields @ ..] => Ok(read_clause(heap, fields)?.map(Line::State)),
        _ => Ok(None),
    }
}

// A line without the newline that ends it, if one does.
fn trim_newline(line: &[u8]) -> &[u8]
    ensures { result.now ≡ (if slice_index line.now (length line.now - 1) == 10 then take (length line.now - 1) line.now else line.now) }
{
    line.strip_suffix(b"\n").unwrap_or(line)
}

// The lines of a text, each with what it says, if it can be read.
// kept: a loop that pushes; `map` and `try_collect` were tried, but extend by one line at a time, which makes a blank line take twice as long.
pub fn read_lines(heap: Global, text: &[u8]) -> Result<Vec<Option<Line>>, AllocError>
    ensures { IfOk result (λ v. map (option_map said_of) v.items ≡ map said (lines text.now)) }
{
    let mut all = Vec::new(heap);
    for line in text.split_inclusive(|byte| *byte == b'\n') {
        all.push(read_line(heap, trim_newline(line))?)?;
    }
    Ok(all)
}
