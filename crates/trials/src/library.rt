// The library, held to the second translator.
use reference::encodings::Encoding;
use reference::program;
use reference::tally::{Case, Tally};
use std::alloc::AllocError;

// The mappings that the library knows by name.
const KNOWN: [Encoding; 1] = [Encoding::FR];

// Compares the library's output for an input with the second translator's, and answers it.
pub fn run(tally: &mut Tally, input: &[u8]) -> Result<Vec<u8>, AllocError> {
    let wanted = program::try_output(tally.heap, input, &KNOWN)?;
    let made = reader::translate_text(tally.heap, input)?;
    tally.try_compare(&Case {
        input,
        wanted: wanted.as_bytes(),
        made: made.as_slice(),
    })?;
    Ok(made)
}
