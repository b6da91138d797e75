// Checks the library against crate `reference`, a second implementation that shares no code with it: its parser of lines and its
// translator, under FR, say which bytes the program is to print, and are held to what `translate_text` prints
// - on sheets made at random, of many sizes and with all kinds of faults;
// - on small sheets, where also every assignment of the Booleans is enumerated: those that satisfy the printed clauses are to be those
//   that stand for values such that the accepted clauses hold;
// - at every limit, where the front of the output is written out too, and at limits that no input reaches by rows of calls;
// - on input that means harm: lines that are none, changed bytes, lengths at the limit, junk;
// - without a line that was refused: nothing else may change.
#![tactic(auto)]

mod boundaries;
mod calls;
mod hostile;
mod library;
mod making;
mod models;
mod random;
mod random_sheets;
mod refused_lines;
mod tables;
#[cfg(test)]
mod without_fail;

use making::Maker;
use reference::tally::Tally;
use std::alloc::AllocError;
use std::io;
use std::io::Write;

// Where the random numbers start.
const SEED: u64 = 20;

// Tries something, and reports it as a group.
fn group<F: FnOnce(&mut Tally) -> Result<(), AllocError>>(
    tally: &mut Tally,
    name: &str,
    trials: F,
) -> Result<(), AllocError>
    requires { F.IsAlwaysCallable trials }
{
    trials(tally)?;
    tally.try_close(name)
}

// Tries something made at random so many times, and reports it as a group.
fn rounds<F: Fn(&mut Tally, &mut Maker) -> Result<(), AllocError>>(
    tally: &mut Tally,
    maker: &mut Maker,
    name: &str,
    count: usize,
    trial: F,
) -> Result<(), AllocError>
    requires { F.IsAlwaysCallable trial }
{
    for _ in 0..count {
        trial(tally, maker)?;
    }
    tally.try_close(name)
}

fn try_random(tally: &mut Tally, maker: &mut Maker) -> Result<(), AllocError> {
    let small = "small sheets and their assignments";
    rounds(tally, maker, small, 400, random_sheets::try_small)?;
    rounds(tally, maker, "random sheets", 100, random_sheets::try_kinds)?;
    rounds(
        tally,
        maker,
        "without a refused line",
        100,
        refused_lines::try_faulty,
    )?;
    rounds(tally, maker, "junk", 125, hostile::try_junk)
}

fn try_written(tally: &mut Tally) -> Result<(), AllocError> {
    group(tally, "limits of a sheet", boundaries::run_all)?;
    group(tally, "limits of rows of calls", calls::run_all)?;
    group(tally, "hostile lines", hostile::try_lines)?;
    group(tally, "changed bytes", hostile::try_changes)?;
    group(tally, "lengths", hostile::try_lengths)
}

fn main(rt: HostRuntime) -> io::Result<()> {
    let mut tally = Tally::new(rt.alloc());
    let mut maker = Maker::new(rt.alloc(), SEED);
    try_random(&mut tally, &mut maker)?;
    try_written(&mut tally)?;
    tally.try_finish()?;
    rt.stdout().write_all(tally.report.as_bytes())
}
