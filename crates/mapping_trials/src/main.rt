// Checks the calls of each mapping against the reference's: at every size from 0 to 66 and at some large ones the width, the axioms
// and the memory behind them, the forms of values in and out of range and the places behind them, and the readings of codes, of rows
// that are nearly codes and, where there are few Booleans, of all rows. It also counts axioms and rows by formulas, and holds the
// readings to the axioms and forms that the mapping itself gives.
#![tactic(auto)]

mod axioms;
mod counts;
mod forms;
mod laws;
mod nearly;
mod readings;
mod sizes;
mod subject;

use encodings::FullRegular;
use full_encodings::FullLogarithmic;
use mapping::Mapping;
use reference::encodings::Encoding;
use reference::tally::Tally;
use standard_encoding::Standard;
use std::alloc::AllocError;
use std::io;
use std::io::Write;
use subject::{Subject, Subjects};
use tied_encodings::{HalfTied, Tied};

// At every size, one question after the other.
fn try_mapping<M: Mapping + Copy>(
    tally: &mut Tally,
    encoding: Encoding,
    mapping: M,
) -> Result<(), AllocError> {
    let subjects = Subjects::new(tally.heap, encoding, mapping)?;
    subjects.ask(tally, "widths", Subject::try_width)?;
    subjects.ask(tally, "axioms", Subject::try_axioms)?;
    subjects.ask(tally, "forms", Subject::try_forms)?;
    subjects.ask(tally, "readings of codes and near ones", Subject::try_codes)?;
    subjects.ask(
        tally,
        "readings of rows of any length",
        Subject::try_strangers,
    )?;
    subjects.ask(tally, "readings of all rows", Subject::try_all)?;
    subjects.ask(tally, "counts", Subject::try_counts)?;
    subjects.ask(tally, "laws", Subject::try_laws)
}

fn main(rt: HostRuntime) -> io::Result<()> {
    let mut tally = Tally::new(rt.alloc());
    try_mapping(&mut tally, Encoding::S, Standard)?;
    try_mapping(&mut tally, Encoding::FL, FullLogarithmic)?;
    try_mapping(&mut tally, Encoding::L, Tied(FullLogarithmic))?;
    try_mapping(&mut tally, Encoding::FR, FullRegular)?;
    try_mapping(&mut tally, Encoding::R, Tied(FullRegular))?;
    try_mapping(&mut tally, Encoding::HR, HalfTied(Tied(FullRegular)))?;
    tally.try_finish()?;
    rt.stdout().write_all(tally.report.as_bytes())
}
