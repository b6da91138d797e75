// Inputs that mean harm: lines that are none, wrong beginnings, changed bytes, lengths at the limit, junk.
use crate::library;
use crate::making::{BYTES, Maker};
use crate::random::Random;
use crate::tables::{fill, pad};
use reference::tally::Tally;
use std::alloc::AllocError;

// Where a line is put.
const SHEETS: [&str; 6] = [
    "%",
    "%~",
    "m FR~%",
    "m FR~%~d 3~",
    "m FR~d 3~d 2~%~s +1:2 -2:1~%~s +2:2~",
    "%~m FR~d 3~s +1:1~",
];

// Lines, most of which cannot be read.
static LINES: [&str; 96] = [
    "",
    " ",
    "  ",
    "\t",
    "\r",
    "\0",
    "\0\0\0",
    "~",
    "m",
    "m ",
    "m FR",
    "m FR ",
    "m  FR",
    " m FR",
    "m FR\r",
    "m FR\0",
    "m\tFR",
    "m fr",
    "m Fr",
    "m FRR",
    "m F",
    "m R",
    "m RF",
    "m S",
    "m FL",
    "mFR",
    "M FR",
    "FR",
    "mm FR",
    "m FR FR",
    "m FR d 3",
    "d",
    "d ",
    "d 3",
    "d 3 ",
    "d  3",
    " d 3",
    "d 3 3",
    "d3",
    "D 3",
    "d\t3",
    "d 3\r",
    "d 3\0",
    "d +3",
    "d -3",
    "d 3.",
    "d x",
    "d 00003",
    "d 000003",
    "d 99999",
    "d 100000",
    "d 0",
    "d 00000",
    "d 1",
    "d 65",
    "d \u{663}",
    "dd 3",
    "d 3d",
    "d d",
    "s",
    "s ",
    "s  ",
    " s",
    "S",
    "s\r",
    "s\0",
    "ss",
    "s s",
    "s +1:2",
    "s +1:2 ",
    "s  +1:2",
    "s +1:2  -2:1",
    "s+1:2",
    "s +1:",
    "s +:2",
    "s +",
    "s -",
    "s 1:2",
    "s +1 2",
    "s +12",
    "s +1::2",
    "s +1:2:1",
    "s ++1:2",
    "s +-1:2",
    "s + 1:2",
    "s +1: 2",
    "s +1 :2",
    "s +1:2\r",
    "s +1:2\t",
    "s +1:2 x",
    "s +000001:2",
    "s +1:000002",
    "s +00001:00002",
    "s +1:-2",
    "s +1:2,-2:1",
    "\u{e9}\u{ff}\u{20ac}",
];

// Puts each line into each sheet.
pub fn try_lines(tally: &mut Tally) -> Result<(), AllocError> {
    for sheet in SHEETS {
        for line in LINES.iter() {
            let input = fill(tally.heap, sheet, line)?;
            library::run(tally, input.as_bytes())?;
        }
    }
    Ok(())
}

// What long inputs begin with, what they go on with, and their lengths.
const FRONTS: [&str; 4] = ["", "m FR~", "m FR~s", "m FR~d 3~s -1:2"];

const FILLERS: [&str; 9] = [
    "~",
    "s~",
    "d 2~",
    "x",
    "\0",
    " ",
    " +1:1",
    " +1:2 -1:3",
    "m FR~",
];

const LENGTHS: [usize; 8] = [0, 1, 4, 5, 100, 16383, 16384, 16385];

fn try_lengths_of(tally: &mut Tally, front: &str, filler: &str) -> Result<(), AllocError> {
    for length in LENGTHS {
        let input = pad(tally.heap, front, filler, length)?;
        library::run(tally, input.as_slice())?;
    }
    Ok(())
}

pub fn try_lengths(tally: &mut Tally) -> Result<(), AllocError> {
    for front in FRONTS {
        for filler in FILLERS {
            try_lengths_of(tally, front, filler)?;
        }
    }
    Ok(())
}

// Puts each byte between two parts of a sheet, and behind the first alone.
fn insert_bytes(tally: &mut Tally, before: &[u8], after: &[u8]) -> Result<(), AllocError> {
    for byte in 0..=255u8 {
        let mut input = before.to_vec(tally.heap)?;
        input.push(byte)?;
        library::run(tally, input.as_slice())?;
        input.extend_from_slice(after)?;
        library::run(tally, input.as_slice())?;
    }
    Ok(())
}

// A good sheet.
const GOOD: &[u8] = b"m FR\nd 3\nd 02\ns +1:2 -2:1\ns\ns -1:3\n";

// Puts each byte in front of each byte of a good sheet, and in its place.
pub fn try_changes(tally: &mut Tally) -> Result<(), AllocError> {
    for place in 0..GOOD.len() {
        let (before, after) = GOOD.split_at(place);
        insert_bytes(tally, before, after)?;
        insert_bytes(tally, before, after.get(1..).unwrap_or(after))?;
    }
    Ok(())
}

// Which bytes junk has: any, or only those that lines are made of and a few others.
#[derive(Clone, Copy)]
enum Junk {
    Wild,
    Likely,
}

// Adds bytes at random.
fn put_junk(text: &mut Vec<u8>, random: &mut Random, junk: Junk) -> Result<(), AllocError> {
    for _ in 0..random.below(80) {
        let byte = match junk {
            Junk::Wild => random.byte(),
            Junk::Likely => random.byte_of(BYTES),
        };
        text.push(byte)?;
    }
    Ok(())
}

// Eight inputs of junk: two of them have no good beginning, and one has any bytes.
pub fn try_junk(tally: &mut Tally, maker: &mut Maker) -> Result<(), AllocError> {
    for round in 0..8 {
        let front = if round % 4 == 0 { "" } else { "m FR\nd 3\n" };
        let junk = if round == 1 { Junk::Wild } else { Junk::Likely };
        let mut input = front.as_bytes().to_vec(tally.heap)?;
        put_junk(&mut input, &mut maker.random, junk)?;
        library::run(tally, input.as_slice())?;
    }
    Ok(())
}
