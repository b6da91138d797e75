// Inputs that are written as patterns.
use std::alloc::{AllocError, Global};

// A pattern's text, in which ~ stands for a newline and % for a line.
pub fn fill(heap: Global, pattern: &str, line: &str) -> Result<String, AllocError> {
    let lines = pattern.replace(heap, '~', "\n")?;
    lines.as_str().replace(heap, '%', line)
}

// A pattern so many times.
pub type Part = (u32, &'static str);

// The text of a sheet's parts, in which ~ stands for a newline.
pub fn join(heap: Global, parts: &[Part]) -> Result<String, AllocError> {
    let mut patterns = String::new(heap);
    for (times, pattern) in parts {
        for _ in 0..*times {
            patterns.push_str(pattern)?;
        }
    }
    patterns.as_str().replace(heap, '~', "\n")
}

// A text of a length: a front, and a filler again and again.
pub fn pad(heap: Global, front: &str, filler: &str, length: usize) -> Result<Vec<u8>, AllocError> {
    let front = fill(heap, front, "")?;
    let filler = fill(heap, filler, "")?;
    let fillers = filler.as_bytes().iter().cycle();
    front
        .as_bytes()
        .iter()
        .chain(fillers)
        .take(length)
        .copied()
        .collect(heap)
}
