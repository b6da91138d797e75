// Counts comparisons, and reports the first of a group that fails.
use std::alloc::{AllocError, Global};
use std::fmt::{Display, Write};
use std::{fmt, mem};

// How many comparisons were tried, and how many of them agree.
#[derive(Clone, Copy, Default)]
pub struct Score {
    tried: u64,
    agree: u64,
}

impl Score {
    // One comparison.
    pub fn of(agrees: bool) -> Score {
        Score {
            tried: 1,
            agree: u64::from(agrees),
        }
    }

    // Adds the comparisons of another score.
    pub fn add(&mut self, more: Score) {
        self.tried = self.tried.saturating_add(more.tried);
        self.agree = self.agree.saturating_add(more.agree);
    }

    // Whether all agree.
    fn is_full(self) -> bool {
        self.tried == self.agree
    }
}

// An input, what is wanted of it and what was made of it.
#[derive(Clone, Copy)]
pub struct Case<'a> {
    pub input: &'a [u8],
    pub wanted: &'a [u8],
    pub made: &'a [u8],
}

impl Case<'_> {
    // The first byte at which what was made differs from what is wanted.
    fn difference(&self) -> usize {
        let shorter = self.wanted.len().min(self.made.len());
        self.wanted
            .iter()
            .zip(self.made)
            .position(|(wanted, made)| wanted != made)
            .unwrap_or(shorter)
    }
}

// Some bytes from a place on, in a readable way.
#[derive(Clone, Copy)]
struct Readable<'a>(&'a [u8]);

impl<'a> Readable<'a> {
    fn new(text: &'a [u8], start: usize) -> Readable<'a> {
        let rest = text.get(start..).unwrap_or(&[]);
        Readable(rest.get(..2000).unwrap_or(rest))
    }
}

impl Display for Readable<'_> {
    fn fmt<W: fmt::Write>(&self, f: &mut fmt::Formatter<W>) -> fmt::Result {
        for byte in self.0 {
            match *byte {
                b'\n' => f.write_str("\\n\n    ")?,
                b' '..=b'~' => f.write_char(char::from(*byte))?,
                other => write!(f, "<{other}>")?,
            }
        }
        Ok(())
    }
}

// A case of which what was made differs from what is wanted: the input, and both outputs from shortly before they differ.
impl Display for Case<'_> {
    fn fmt<W: fmt::Write>(&self, f: &mut fmt::Formatter<W>) -> fmt::Result {
        let start = self.difference().saturating_sub(100);
        let input = Readable::new(self.input, 0);
        let wanted = Readable::new(self.wanted, start);
        let made = Readable::new(self.made, start);
        writeln!(f, "  input:\n    {input}")?;
        writeln!(f, "  wanted, near the first difference:\n    {wanted}")?;
        writeln!(f, "  made:\n    {made}")
    }
}

// The comparisons of a group; the first difference of the group; whether a group before fails; and what is reported of all groups.
// kept: a flag, since a sum of all scores would stop at the largest number, and say then that all agree.
#[derive(Drop)]
pub struct Tally {
    pub heap: Global,
    score: Score,
    difference: String,
    fails: bool,
    pub report: String,
}

impl Tally {
    pub fn new(heap: Global) -> Tally {
        Tally {
            heap,
            score: Score::default(),
            difference: String::new(heap),
            fails: false,
            report: String::new(heap),
        }
    }

    // Counts a comparison that agrees.
    pub fn agree(&mut self) {
        self.score.add(Score::of(true));
    }

    // Counts comparisons that a case shows. The first that does not agree is written out.
    pub fn try_count(&mut self, score: Score, case: &Case<'_>) -> Result<(), AllocError> {
        let first = self.score.is_full() && !score.is_full();
        self.score.add(score);
        if first {
            write!(self.difference, "{case}")?;
        }
        Ok(())
    }

    // The same, but of the case what there is no memory for is lost.
    pub fn count(&mut self, score: Score, case: &Case<'_>) {
        let _ = self.try_count(score, case);
    }

    // Compares what is wanted with what was made.
    pub fn try_compare(&mut self, case: &Case<'_>) -> Result<(), AllocError> {
        self.try_count(Score::of(case.wanted == case.made), case)
    }

    // The same, but of the case what there is no memory for is lost.
    pub fn compare(&mut self, case: &Case<'_>) {
        let _ = self.try_compare(case);
    }

    // Reports a group, and begins the next one.
    pub fn try_close<N: Display + Drop>(&mut self, name: N) -> Result<(), AllocError> {
        let score = mem::take(&mut self.score);
        let difference = mem::replace(&mut self.difference, String::new(self.heap));
        self.fails = self.fails || !score.is_full();
        let Score { tried, agree } = score;
        writeln!(self.report, "{name}: {tried} tried, {agree} agree")?;
        self.report.push_str(difference.as_str())
    }

    // The same, but of the report what there is no memory for is lost.
    pub fn close<N: Display + Drop>(&mut self, name: N) {
        let _ = self.try_close(name);
    }

    // Reports whether all agree.
    pub fn try_finish(&mut self) -> Result<(), AllocError> {
        let all = if self.fails { "DISAGREE" } else { "all agree" };
        writeln!(self.report, "{all}")
    }

    // The same, but of the report what there is no memory for is lost.
    pub fn finish(&mut self) {
        let _ = self.try_finish();
    }
}
