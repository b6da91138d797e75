// signsat: reads a text of at most 16,384 bytes from standard input and prints its translation.
#![tactic(auto)]

ghost use Rattle.std.specs.Prelude.{◌≤◌, length, IfOk};

use reader::{INPUT_BYTES, translate_text};
use std::io;
use std::io::{Read, Stdin, Write};

// Reads until the input ends or the buffer is full, and answers the bytes read.
// kept: a loop over `read`, each call with all the room that is left, so that one read takes a packet whole; `take` and `read_to_end` were tried, but read 8,192 bytes at first, and what a packet holds behind them is lost.
fn fill(input: &mut Stdin, buffer: &mut [u8]) -> io::Result<usize>
    ensures { IfOk result (λ n. n ≤ length buffer.old) }
{
    let mut count = 0;
    while count < buffer.len() {
        let read = input.read(&mut buffer[count..])?;
        if read == 0 {
            break;
        }
        count += read;
    }
    Ok(count)
}

fn main(rt: HostRuntime) -> io::Result<()> {
    let heap = rt.alloc();
    // One byte more than an input may have, so that a longer one is noticed.
    let mut input = vec![in heap; 0u8; INPUT_BYTES + 1]?;
    let count = fill(&mut rt.stdin(), input.as_mut_slice())?;
    let out = translate_text(heap, &input.as_slice()[..count])?;
    rt.stdout().write_all(out.as_slice())
}
