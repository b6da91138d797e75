// What the program prints.
ghost use Rattle.std.specs.Prelude.{◌≡◌, ◌++◌, map, length, drop, OnOk, string_bytes};
ghost use Rattle.std.specs.Option.{option_map};
ghost use Rattle.std.specs.Slice.Iter.{iter_rest};
ghost use Rattle.parser.specs.Said.{said_of};
ghost use Rattle.reader.specs.Faults.{refusal_of};
ghost use Rattle.reader.specs.Program.{steps_in, outcome, refused_line, refused_lines, header};

use crate::calls::call_of;
use crate::faults::LineFault;
use formula::Refusal;
use parser::Line;
use rows::Answer;
use std::alloc::{AllocError, Global};
use std::slice::Iter;

// What becomes of a line, which takes the next of the answers where it makes a call.
fn find_outcome(line: &Option<Line>, answers: &mut Iter<'_, Answer>) -> Result<u32, LineFault>
    ensures outcome { result ≡ outcome (option_map said_of line.now) (iter_rest answers.old) }
    ensures rest { iter_rest answers.new ≡ drop (length (steps_in (option_map said_of line.now))) (iter_rest answers.old) }
{
    call_of(line).ok_or(LineFault::Line)?;
    let answer = answers.next().ok_or(LineFault::Line)?;
    Ok((*answer)?)
}

// Prints a refused line.
pub(crate) fn print_refusal(out: &mut String, line: u64, fault: LineFault) -> Result<(), AllocError>
    ensures { OnOk result (string_bytes out.new ≡ string_bytes out.old ++ refused_line line (refusal_of fault)) }
{
    let refusal = Refusal::from(fault);
    writeln!(out, "c refused {line} {refusal}")
}

// Prints the lines that are refused, from line 2 on.
// kept: what is printed grows by whole lines, each written into one text that is cleared from line to line; one `String` for all was tried, but grows from its first ten bytes, which takes up to half as much memory again.
pub(crate) fn print_refusals(
    heap: Global,
    out: &mut Vec<u8>,
    lines: &[Option<Line>],
    answers: &[Answer],
) -> Result<(), AllocError>
    ensures { OnOk result (out.new.items ≡ out.old.items ++ refused_lines 2 (map (option_map said_of) lines.now) answers.now) }
{
    let mut answers = answers.iter();
    let mut text = String::new(heap);
    for (line, number) in lines.iter().zip(2u64..) {
        if let Err(fault) = find_outcome(line, &mut answers) {
            text.clear();
            print_refusal(&mut text, number, fault)?;
            out.extend_from_slice(text.as_bytes())?;
        }
    }
    Ok(())
}

// Prints the line before the clauses.
pub(crate) fn print_header(out: &mut String, booleans: u32, clauses: u64) -> Result<(), AllocError>
    ensures { OnOk result (string_bytes out.new ≡ string_bytes out.old ++ header booleans clauses) }
{
    writeln!(out, "p cnf {booleans} {clauses}")
}
