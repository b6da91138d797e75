// A mapping at a size, and what the reference says of it.
use crate::sizes::sizes;
use mapping::{AXIOM_WORDS, FORM_LITERALS, Mapping};
use reference::codings::Coding;
use reference::encodings::Encoding;
use reference::forms::{Kind, Sign};
use reference::readings::Readings;
use reference::tally::{Case, Score, Tally};
use std::alloc::{AllocError, Global};
use std::array;
use std::fmt::Debug;

// The most Booleans of a size of which every row is tried.
const MOST: u32 = 12;

#[derive(Drop)]
pub struct Subject<M> {
    pub mapping: M,
    pub encoding: Encoding,
    pub size: u32,
    pub coding: Coding,
    pub readings: Readings,
}

// What memory has before a call, at a place.
pub fn filler(place: usize) -> i32 {
    i32::try_from(place).unwrap_or(0).saturating_add(1_000_000)
}

// Places as they are before a call.
pub fn fillers<const N: usize>() -> [i32; N] {
    array::from_fn(filler)
}

// The memory that a mapping leaves when it is asked for axioms, and the number of words that it answers.
// kept: a mapping writes into memory that is handed in, of a fixed size, and all of that memory is compared. It is lent from a box:
// handed out by value, such arrays took a megabyte of stack.
#[derive(Drop)]
pub struct Axioms {
    pub memory: Box<[i32; AXIOM_WORDS]>,
    pub count: usize,
}

impl Axioms {
    // The axioms, each ended by a 0.
    pub fn words(&self) -> &[i32] {
        self.memory.get(..self.count).unwrap_or(&[])
    }
}

// A form as a mapping gives it: its kind, the number of its literals, and the places that they are written to.
// kept: a mapping writes into places that are handed in, of a fixed number, and all of them are compared.
#[derive(Clone, Copy, Debug, PartialEq, Eq)]
pub struct Formed {
    pub kind: Kind,
    pub count: usize,
    pub places: [i32; FORM_LITERALS],
}

impl Formed {
    pub fn literals(&self) -> &[i32] {
        self.places.get(..self.count).unwrap_or(&[])
    }
}

impl<M: Mapping + Copy> Subject<M> {
    fn new(
        heap: Global,
        encoding: Encoding,
        mapping: M,
        size: u32,
    ) -> Result<Subject<M>, AllocError> {
        let coding = Coding::new(encoding, i64::from(size));
        Ok(Subject {
            mapping,
            encoding,
            size,
            coding,
            readings: Readings::try_new(heap, coding)?,
        })
    }
}

impl<M: Mapping> Subject<M> {
    // The words that the mapping answers and the memory that it leaves.
    pub fn axioms(&self, heap: Global) -> Result<Axioms, AllocError> {
        let mut memory = Box::new(heap, [0; AXIOM_WORDS])?;
        for (place, word) in memory.iter_mut().enumerate() {
            *word = filler(place);
        }
        let count = self.mapping.axioms(self.size, &mut memory);
        Ok(Axioms { memory, count })
    }

    // The form that the mapping gives of a value with a sign.
    // kept: signs and kinds are matched, since neither type is of this crate, and so no From can be written here.
    pub fn form(&self, value: u32, sign: Sign) -> Formed {
        let mut places = fillers();
        let sign = match sign {
            Sign::Plus => formula::Sign::Plus,
            Sign::Minus => formula::Sign::Minus,
        };
        let shape = self.mapping.form(self.size, sign, value, &mut places);
        let kind = match shape.kind {
            mapping::Kind::AllOf => Kind::AllOf,
            mapping::Kind::AnyOf => Kind::AnyOf,
        };
        Formed {
            kind,
            count: shape.count,
            places,
        }
    }

    // The value that the mapping reads a row of bits as.
    pub fn reading(&self, bits: &[u8]) -> Option<i64> {
        self.mapping.reading(self.size, bits).map(i64::from)
    }

    // The rows of bits that the size has, by their numbers, or none where there would be too many.
    pub fn rows(&self) -> u64 {
        let width = u32::try_from(self.coding.width()).unwrap_or(0);
        if width > 0 && width <= MOST {
            2u64.saturating_pow(width)
        } else {
            0
        }
    }

    // The row of a number: its bits, the lowest first.
    pub fn row(&self, heap: Global, number: u64) -> Result<Vec<u8>, AllocError> {
        (0..self.coding.width())
            .scan(number, |rest, _| {
                let bit = u8::from(*rest % 2 == 1);
                *rest /= 2;
                Some(bit)
            })
            .collect(heap)
    }

    // Counts a comparison. What was asked is only written out where the answers differ.
    pub fn compare<A: Debug, T: Debug + PartialEq>(
        &self,
        tally: &mut Tally,
        about: &A,
        wanted: &T,
        made: &T,
    ) -> Result<(), AllocError> {
        if wanted == made {
            tally.agree();
            return Ok(());
        }
        let heap = tally.heap;
        let (encoding, size) = (self.encoding, self.size);
        let input = format!(in heap; "{encoding}, size {size}, asked about {about:?}")?;
        let wanted = format!(in heap; "{wanted:?}")?;
        let made = format!(in heap; "{made:?}")?;
        let case = Case {
            input: input.as_bytes(),
            wanted: wanted.as_bytes(),
            made: made.as_bytes(),
        };
        tally.try_count(Score::of(false), &case)
    }
}

// A mapping at all sizes.
#[derive(Drop)]
pub struct Subjects<M> {
    encoding: Encoding,
    all: Vec<Subject<M>>,
}

impl<M: Mapping + Copy> Subjects<M> {
    pub fn new(heap: Global, encoding: Encoding, mapping: M) -> Result<Subjects<M>, AllocError> {
        let mut all = Vec::new(heap);
        for size in sizes(heap)?.iter() {
            all.push(Subject::new(heap, encoding, mapping, *size)?)?;
        }
        Ok(Subjects { encoding, all })
    }

    // Asks a question at every size, and reports the answers as a group.
    pub(crate) fn ask<F: Fn(&Subject<M>, &mut Tally) -> Result<(), AllocError>>(
        &self,
        tally: &mut Tally,
        group: &str,
        question: F,
    ) -> Result<(), AllocError>
        requires { F.IsAlwaysCallable question }
    {
        for subject in self.all.iter() {
            question(subject, tally)?;
        }
        let encoding = self.encoding;
        tally.try_close(format_args!("{encoding}, {group}"))
    }
}
