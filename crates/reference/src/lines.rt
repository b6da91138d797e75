// Reads a line behind the first, one byte after the other.
ghost use Rattle.std.specs.Prelude.{◌≡◌, ◌==◌, ◌∷◌, [], if◌then◌else◌, drop};
ghost use Rattle.std.specs.List.{starts_with};

use crate::forms::Sign;
use crate::refusals::Refused;

// A signed literal as it was read.
#[derive(Clone, Copy)]
pub struct Signed {
    pub sign: Sign,
    pub variable: i64,
    pub value: i64,
}

// The most literals of a clause.
pub(crate) const MOST_LITERALS: usize = 16;

// The literals of a clause. Of one that has more than may be, only their number is known; `read_literals` gives them.
// kept: an array with a count, so that a line can be copied, and is read without memory.
#[derive(Clone, Copy)]
pub struct Clause {
    pub count: usize,
    literals: [Signed; MOST_LITERALS],
}

impl Clause {
    // The empty clause.
    pub fn empty() -> Clause {
        let none = Signed {
            sign: Sign::Plus,
            variable: 0,
            value: 0,
        };
        Clause {
            count: 0,
            literals: [none; MOST_LITERALS],
        }
    }

    fn put(&mut self, literal: Signed) {
        if let Some(place) = self.literals.get_mut(self.count) {
            *place = literal;
        }
        self.count = self.count.saturating_add(1);
    }

    // The literals, where they are known.
    pub fn literals(&self) -> Option<&[Signed]> {
        self.literals.get(..self.count)
    }
}

// What a line asks for.
#[derive(Clone, Copy)]
pub enum Line {
    Declare(i64),
    State(Clause),
}

// How far a line was read.
#[derive(Clone, Copy)]
enum Step {
    Start,
    Declare,
    Size,
    Clause,
    Space,
    Variable,
    Value,
}

// A line of which some bytes were read: the literals that it had so far, and what is known of the next one.
// kept: a machine over bytes, since the library cuts a line into parts, and a slip of one reading is not to be made in the other.
#[derive(Clone, Copy)]
struct Reader {
    step: Step,
    digits: u32,
    number: i64,
    sign: Sign,
    variable: i64,
    clause: Clause,
}

impl Reader {
    fn new() -> Reader {
        Reader {
            step: Step::Start,
            digits: 0,
            number: 0,
            sign: Sign::Plus,
            variable: 0,
            clause: Clause::empty(),
        }
    }

    // A number begins.
    fn begin(&mut self, step: Step) -> Step {
        self.digits = 0;
        self.number = 0;
        step
    }

    // A number of at most five digits goes on.
    fn digit(&mut self, step: Step, byte: u8) -> Result<Step, Refused> {
        let digit = byte.wrapping_sub(b'0');
        if digit > 9 || self.digits > 4 {
            return Err(Refused::Unreadable);
        }
        self.digits = self.digits.saturating_add(1);
        self.number = self
            .number
            .saturating_mul(10)
            .saturating_add(i64::from(digit));
        Ok(step)
    }

    // A literal ends.
    fn literal(&mut self) -> Step {
        self.clause.put(Signed {
            sign: self.sign,
            variable: self.variable,
            value: self.number,
        });
        Step::Space
    }

    // Reads a byte, and says how far the line is read then.
    fn feed(&mut self, byte: u8) -> Result<Step, Refused> {
        let ready = self.digits > 0;
        match (self.step, byte) {
            (Step::Start, b'd') => Ok(Step::Declare),
            (Step::Start, b's') => Ok(Step::Clause),
            (Step::Declare, b' ') => Ok(self.begin(Step::Size)),
            (Step::Clause, b' ') => Ok(Step::Space),
            (Step::Space, b'+') => {
                self.sign = Sign::Plus;
                Ok(self.begin(Step::Variable))
            }
            (Step::Space, b'-') => {
                self.sign = Sign::Minus;
                Ok(self.begin(Step::Variable))
            }
            (Step::Variable, b':') if ready => {
                self.variable = self.number;
                Ok(self.begin(Step::Value))
            }
            (Step::Value, b' ') if ready => Ok(self.literal()),
            (Step::Size | Step::Variable | Step::Value, _) => self.digit(self.step, byte),
            _ => Err(Refused::Unreadable),
        }
    }

    // The line ends.
    fn end(mut self) -> Result<Line, Refused> {
        match self.step {
            Step::Size if self.digits > 0 => Ok(Line::Declare(self.number)),
            Step::Clause => Ok(Line::State(self.clause)),
            Step::Value if self.digits > 0 => {
                self.literal();
                Ok(Line::State(self.clause))
            }
            _ => Err(Refused::Unreadable),
        }
    }
}

// Reads a line, which has no newline.
pub fn read(line: &[u8]) -> Result<Line, Refused> {
    let mut reader = Reader::new();
    for byte in line {
        reader.step = reader.feed(*byte)?;
    }
    reader.end()
}

// What is left of a line of which some literals were given.
#[derive(Drop)]
pub struct Literals<'a>(&'a [u8]);

// The literals of a line that states a clause, however many there are: what is behind s (115) and a space (32) is gone through. A line
// that only begins so has those before the first that cannot be read.
pub fn read_literals(line: &[u8]) -> Literals<'_>
    ensures { result.0.now ≡ (if starts_with (λ a b. a == b) line.now (115 ∷ 32 ∷ []) then drop 2 line.now else []) }
{
    Literals(line.strip_prefix(b"s ").unwrap_or(&[]))
}

impl Iterator for Literals<'_> {
    ghost use Rattle.std.specs.Prelude.{length};
    ghost use Rattle.std.specs.Iterator.{at_most};

    type Item = Signed;

    ghost remaining = { λ s. at_most (length s.0.now) };

    fn next(&mut self) -> Option<Signed> {
        let bytes = self.0;
        if bytes.is_empty() {
            return None;
        }
        let mut reader = Reader::new();
        reader.step = Step::Space;
        // A space ends a literal. One more is read behind the line, which ends the last.
        for (place, byte) in bytes.iter().chain(b" ").enumerate() {
            reader.step = reader.feed(*byte).ok()?;
            if reader.clause.count > 0 {
                self.0 = bytes.get(place.saturating_add(1)..).unwrap_or(&[]);
                return reader.clause.literals()?.first().copied();
            }
        }
        None
    }
}

// The lines of an input that were not given yet.
#[derive(Drop)]
pub struct Lines<'a>(&'a [u8]);

// The lines of an input: a newline ends a line, and the last line may do without.
pub fn split(input: &[u8]) -> Lines<'_> {
    Lines(input)
}

// kept: cut by hand, for the reason that the reader of a line has.
impl<'a> Iterator for Lines<'a> {
    ghost use Rattle.std.specs.Prelude.{length};
    ghost use Rattle.std.specs.Iterator.{at_most};

    type Item = &'a [u8];

    ghost remaining = { λ s. at_most (length s.0.now) };

    fn next(&mut self) -> Option<&'a [u8]> {
        let bytes = self.0;
        if bytes.is_empty() {
            return None;
        }
        let end = bytes
            .iter()
            .position(|byte| *byte == b'\n')
            .unwrap_or(bytes.len());
        self.0 = bytes.get(end.saturating_add(1)..).unwrap_or(&[]);
        Some(bytes.get(..end).unwrap_or(&[]))
    }
}
