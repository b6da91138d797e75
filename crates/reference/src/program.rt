// What the program is to print for an input, by the second translator.
use crate::encodings::{ENCODINGS, Encoding};
use crate::lines::{read, split};
use crate::refusals::Fault;
use crate::sheet::Sheet;
use std::alloc::{AllocError, Global};

// The bytes that an input has at most.
const LONGEST: usize = 16_384;

// The words that the program's store takes: 32,768 bytes, nine for a word.
const CAPACITY: i64 = 3640;

// The encoding that a first line names, of those that are known.
fn find_encoding(line: &[u8], known: &[Encoding]) -> Option<Encoding> {
    let name = line.strip_prefix(b"m ")?;
    known
        .iter()
        .copied()
        .find(|encoding| encoding.name().as_bytes() == name)
}

// The encoding that an input names in its first line, and the length of that line with its end.
pub fn read_first(input: &[u8]) -> Option<(Encoding, usize)> {
    let line = split(input).next()?;
    let encoding = find_encoding(line, &ENCODINGS)?;
    Some((encoding, line.len().saturating_add(1)))
}

// What the program is to print for an input, where it knows some encodings.
pub fn try_output(heap: Global, input: &[u8], known: &[Encoding]) -> Result<String, AllocError> {
    let mut lines = split(input);
    let encoding = lines.next().and_then(|line| find_encoding(line, known));
    let Some(encoding) = encoding.filter(|_| input.len() <= LONGEST) else {
        return String::from_str(heap, "c refused 1 15 L 0 0\n");
    };
    let mut sheet = Sheet::new(heap, encoding, CAPACITY);
    for (number, line) in (2..).zip(lines) {
        let line = read(line).map_err(Fault::from);
        let outcome = line.and_then(|line| sheet.enter(&line));
        sheet.try_note(number, outcome)?;
    }
    sheet.to_string(heap)
}

// The same, where it knows all encodings. There is nothing where there is no memory for it all.
pub fn output(heap: Global, input: &[u8]) -> Vec<u8> {
    match try_output(heap, input, &ENCODINGS) {
        Ok(all) => all.into_bytes(),
        Err(_) => Vec::new(heap),
    }
}
