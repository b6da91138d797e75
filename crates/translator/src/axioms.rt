// The axioms of a variable, stored.
// kept: `as` from or to usize and i32, which have no From; each is proved to lose nothing.
ghost use Rattle.std.specs.Prelude.{◌≡◌, [], Ok, ◌==◌, position};
ghost use Rattle.formula.specs.Boolean.{number};
ghost use Rattle.mapping.specs.Memory.{flat, over};
ghost use Rattle.translator.specs.Filing.{axioms_answer, with_all, after_all};
ghost use Rattle.translator.specs.Places.{placed_axioms};
ghost use Rattle.translator.specs.Placed.{Takes};
ghost use Rattle.translator.specs.Words.{ended_in, axioms_left};

use crate::room::check_room;
use mapping::{AXIOM_WORDS, Mapping, move_words};
use store::{Store, StoreFault};

// The number of words before the first end.
fn find_end(words: &[i32]) -> Option<usize>
    ensures { result ≡ position (λ w. number w == 0) words.now }
{
    words.iter().position(|word| *word == 0)
}

// Puts each clause that ends in these words, which are left as they were.
// The store has been asked for room, so no put refuses.
fn put_clauses<S: Store>(store: &mut S, words: &mut [i32]) -> Result<(), StoreFault>
    requires { Takes (S.Store.terms store.old) (S.Store.contents store.old) (ended_in [] words.old) }
    ensures answer { result ≡ Ok tt }
    ensures after { S.Store.contents store.new ≡ with_all (S.Store.terms store.old) (S.Store.contents store.old) (ended_in [] words.old) }
    ensures same { S.Store.terms store.new ≡ S.Store.terms store.old }
    ensures kept { words.new ≡ words.old }
{
    // kept: a place by hand; tried over `split_inclusive_mut`, after which it stays open that the words are as they were.
    let mut begin = 0;
    while let Some(length) = find_end(&words[begin..]) {
        let end = begin + length;
        store.put(&mut words[begin..end])?;
        begin = end + 1;
    }
    Ok(())
}

// Stores the axioms of a variable of this size behind the Booleans before its own: all of them, or none where the store has no room.
// The mapping hands them out in `memory`, where they are left.
pub fn file_axioms<M: Mapping, S: Store>(
    mapping: &M,
    store: &mut S,
    memory: &mut [i32; AXIOM_WORDS],
    start: u32,
    size: u32,
) -> Result<(), StoreFault>
    ensures answer { result ≡ axioms_answer M.Mapping.meaning (S.Store.terms store.old) (S.Store.contents store.old) start size }
    ensures after { S.Store.contents store.new ≡ after_all result (S.Store.terms store.old) (S.Store.contents store.old) (placed_axioms M.Mapping.meaning start size) }
    ensures same { S.Store.terms store.new ≡ S.Store.terms store.old }
    ensures memory { memory.new ≡ over (flat (axioms_left result M.Mapping.meaning start size)) memory.old }
{
    let count = mapping.axioms(size, memory);
    let highest = u64::from(start) + u64::from(mapping.width(size));
    check_room(store, highest, count as u64)?;
    let words = &mut memory[..count];
    move_words(words, start);
    put_clauses(store, words)
}
