// A refused line changes nothing: without it the output is the same, but for its refusal and the numbers of lines.
use crate::making::{Kind, Maker};
use crate::models::Printed;
use reader::translate_text;
use reference::tally::{Case, Tally};
use std::alloc::{AllocError, Global};

// An input without the line of a number, counted from 1.
fn without(heap: Global, input: &[u8], number: i64) -> Result<Vec<u8>, AllocError> {
    let mut kept = Vec::new(heap);
    for (place, line) in (1..).zip(input.split_inclusive(|byte| *byte == b'\n')) {
        if place != number {
            kept.extend_from_slice(line)?;
        }
    }
    Ok(kept)
}

// Adds a refusal without the number of its line, which is its third word.
fn put_masked(text: &mut Vec<u8>, refusal: &[u8]) -> Result<(), AllocError> {
    for (place, word) in refusal.split_inclusive(|byte| *byte == b' ').enumerate() {
        if place != 2 {
            text.extend_from_slice(word)?;
        }
    }
    Ok(())
}

// An output without the numbers of lines, and without one of its refusals, counted from 0.
fn masked(heap: Global, output: &[u8], left_out: Option<usize>) -> Result<Vec<u8>, AllocError> {
    let mut kept = Vec::new(heap);
    for (place, line) in output.split_inclusive(|byte| *byte == b'\n').enumerate() {
        if !line.starts_with(b"c") {
            kept.extend_from_slice(line)?;
        } else if left_out != Some(place) {
            put_masked(&mut kept, line)?;
        }
    }
    Ok(kept)
}

// Takes each refused line away, one at a time. All refusals are printed first, in the order of their lines.
fn check(tally: &mut Tally, input: &[u8]) -> Result<(), AllocError> {
    let heap = tally.heap;
    let output = translate_text(heap, input)?;
    let printed = Printed::read(heap, output.as_slice())?;
    for (refusal, number) in printed.refused.iter().enumerate() {
        if *number > 1 {
            let input = without(heap, input, *number)?;
            let made = translate_text(heap, input.as_slice())?;
            tally.try_compare(&Case {
                input: input.as_slice(),
                wanted: masked(heap, output.as_slice(), Some(refusal))?.as_slice(),
                made: masked(heap, made.as_slice(), None)?.as_slice(),
            })?;
        }
    }
    Ok(())
}

// Sheets with many faults.
const FAULTY: Kind = Kind {
    lines: 40,
    size: 7,
    literals: 4,
    booleans: 30,
    spoiled: 60,
};

// A sheet with many faults.
pub fn try_faulty(tally: &mut Tally, maker: &mut Maker) -> Result<(), AllocError> {
    let input = maker.sheet(&FAULTY)?;
    check(tally, input.as_slice())
}
