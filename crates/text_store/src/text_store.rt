// The text store: what it keeps true, and its calls.
// kept: `as` from or to usize and i32, which have no From; each is proved to lose nothing.
ghost use Rattle.std.specs.Prelude.{◌≡◌, ℕ, ◌-◌, ◌<◌, true, length, take, vec_len};
ghost use Rattle.formula.specs.Tests.{every};
ghost use Rattle.store.specs.Stores.{put_answer, after_put, after_cut};
ghost use Rattle.text_store.specs.ByteStores.{fit_clause, byte_bounded, byte_empty, StandsFor};
ghost use Rattle.text_store.specs.Texts.{text_clause, text_most};
ghost use Rattle.text_store.specs.TextStores.{text_terms, terms_of};

use crate::fitting::{LARGEST, check_numbers};
use crate::scanning::last_piece;
use crate::writing::write_clause;
use std::marker::Model;
use store::{Store, StoreFault};

// The most words that a buffer of any length takes.
const MOST_WORDS: u64 = 16_777_216;

// The most bytes of a word: a sign, seven digits and a space.
const WORD_BYTES: u64 = 9;

// The words of a text are its bytes below this one: a space ends a literal, and a newline a clause.
const VISIBLE: u8 = 33;

// Holds clauses as text, one behind the other from the start of its buffer: so many bytes, words and clauses.
// kept: the buffer is handed in and given back with its length, and every byte of it is promised, so the text's length stands beside it.
#[derive(Drop)]
pub struct TextStore {
    bytes: Vec<u8>,
    held: usize,
    words: u64,
    count: u64,
}

// Seen as its contents: the clauses that its text stands for, and all of its buffer.
impl Model for TextStore {
    ghost use Rattle.std.specs.Prelude.{ℕ};
    ghost use Rattle.store.specs.Stores.{Contents};
    ghost use Rattle.text_store.specs.ByteStores.{byte_contents};
    ghost use Rattle.text_store.specs.Texts.{text_list};
    ghost use Rattle.text_store.specs.TextStores.{IsKept};

    ghost Value = { Contents ℕ };

    ghost view = { λ s. byte_contents text_list s.bytes.items s.held };

    ghost invariant = { λ s. IsKept s.bytes.items s.held s.words s.count };
}

impl TextStore {
    // An empty store over a buffer, whose bytes it leaves.
    pub fn new(bytes: Vec<u8>) -> TextStore
        ensures contents { result ≡ byte_empty bytes.items }
        ensures terms { terms_of result ≡ text_terms (length bytes.items) }
    {
        TextStore {
            bytes,
            held: 0,
            words: 0,
            count: 0,
        }
    }

    // The text of the clauses held, which is the front of the buffer.
    pub fn held(&self) -> &[u8]
        ensures stands { StandsFor text_clause result.now self.now.list }
        ensures front { take (length result.now) self.now.memory ≡ result.now }
        ensures fit { every fit_clause self.now.list ≡ true }
        ensures raw { self.now.raw ≡ self.now.list }
    {
        &self.bytes.as_slice()[..self.held]
    }

    // Gives the buffer back.
    pub fn finish(self) -> Vec<u8>
        ensures memory { result.items ≡ self.memory }
        ensures long { vec_len result ≡ length self.memory }
    {
        self.bytes
    }

    // Keeps all clauses but the last.
    fn drop_last(&mut self)
        requires { 0 < length self.old.list }
        ensures { self.new ≡ after_cut (length self.old.list - 1) self.old }
    {
        let last = last_piece(self.held(), b'\n', VISIBLE);
        self.held = last.start;
        self.words -= last.lows;
        self.count -= 1;
    }
}

// Each clause is a line of its own: a put writes one behind those held, a cut lets the last of them go.
impl Store for TextStore {
    ghost Cell = { ℕ };

    ghost terms = { terms_of };

    ghost contents = { λ s. s };

    ghost laws = { λ s. byte_bounded text_clause text_most (length s.memory) };

    fn put(&mut self, clause: &mut [i32]) -> Result<(), StoreFault>
        ensures answer { result ≡ put_answer (terms_of self.old) self.old clause.old }
        ensures after { self.new ≡ after_put result (terms_of self.old) self.old clause.old }
        ensures lent { clause.new ≡ clause.old }
        ensures same { terms_of self.new ≡ terms_of self.old }
        ensures long { length self.new.memory ≡ length self.old.memory }
    {
        check_numbers(clause)?;
        let words = clause.len() as u64 + 1;
        self.check_words(words)?;
        self.held += write_clause(&mut self.bytes.as_mut_slice()[self.held..], clause);
        self.words += words;
        self.count += 1;
        Ok(())
    }

    fn cut(&mut self, count: u64) {
        for _ in count..self.count {
            self.drop_last();
        }
    }

    fn clear(&mut self) {
        self.held = 0;
        self.words = 0;
        self.count = 0;
    }

    fn count(&self) -> u64 {
        self.count
    }

    fn held_words(&self) -> u64 {
        self.words
    }

    fn capacity(&self) -> u64 {
        (self.bytes.len() as u64 / WORD_BYTES).min(MOST_WORDS)
    }

    fn largest(&self) -> u64 {
        u64::from(LARGEST)
    }
}
