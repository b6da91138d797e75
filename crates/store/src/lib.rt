// What a clause store means, and what code may ask of one.
#![tactic(auto)]

ghost use Rattle.std.specs.Prelude.{◌≡◌, ℕ, List, length};
ghost use Rattle.formula.specs.Boolean.{words_of};
ghost use Rattle.store.specs.Faults.{refusal_of};
ghost use Rattle.store.specs.Stores.{Terms, Bounded, Contents, words_answer, put_answer, after_put, after_cut, after_clear};

use formula::{Details, Reason, Refusal};

// Why a store refuses a clause.
#[derive(Clone, Copy, Debug, PartialEq, Eq)]
pub enum StoreFault {
    NumbersSpent(Details),
    WordsShort(Details),
}

// The refusal that a fault is printed as.
impl From<StoreFault> for Refusal {
    ghost from_gives = { λ e r. r ≡ refusal_of e };

    fn from(fault: StoreFault) -> Refusal {
        match fault {
            StoreFault::NumbersSpent(details) => Refusal {
                reason: Reason::NumbersSpent,
                details,
            },
            StoreFault::WordsShort(details) => Refusal {
                reason: Reason::WordsShort,
                details,
            },
        }
    }
}

// A store is known by its terms, which no call changes, and by its contents.
// kept: each call says that the terms are the same; in one record with the contents, half of it would have to be said to stay.
pub trait Store {
    // what its buffer is made of, as words or bytes
    ghost Cell: { Type 0 };

    ghost terms: { Self → Terms Cell };

    ghost contents: { Self → Contents Cell };

    // Appends a clause, which is lent for writing and left as it was, or refuses and changes nothing.
    fn put(&mut self, clause: &mut [i32]) -> Result<(), StoreFault>
        ensures answer { result ≡ put_answer (terms self.old) (contents self.old) clause.old }
        ensures after { contents self.new ≡ after_put result (terms self.old) (contents self.old) clause.old }
        ensures lent { clause.new ≡ clause.old }
        ensures same { terms self.new ≡ terms self.old };

    // Keeps the first clauses, or all if there are fewer.
    fn cut(&mut self, count: u64)
        ensures after { contents self.new ≡ after_cut count (contents self.old) }
        ensures same { terms self.new ≡ terms self.old };

    // Keeps no clause.
    fn clear(&mut self)
        ensures after { contents self.new ≡ after_clear (contents self.old) }
        ensures same { terms self.new ≡ terms self.old };

    // The number of clauses held.
    fn count(&self) -> u64
        ensures { result ≡ length (contents self.now).list };

    // The words of the clauses held.
    fn held_words(&self) -> u64
        ensures { result ≡ words_of (contents self.now).list };

    // The most words that may be held.
    fn capacity(&self) -> u64
        ensures { result ≡ (terms self.now).capacity };

    // The largest number that a literal may have.
    fn largest(&self) -> u64
        ensures { result ≡ (terms self.now).largest };

    // Refuses words that pass those left.
    fn check_words(&self, words: u64) -> Result<(), StoreFault>
        ensures { result ≡ words_answer (terms self.now) (contents self.now) words }
    {
        let left = self.capacity().saturating_sub(self.held_words());
        if words > left {
            return Err(StoreFault::WordsShort(Details {
                first: words,
                second: left,
            }));
        }
        Ok(())
    }

    // a capacity of at most 2^40 words, a largest number of at most 2^31 - 1
    ghost laws: { (s : Self) → Bounded (terms s) };
}
