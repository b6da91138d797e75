// Whether a store can take what is to be added.
ghost use Rattle.std.specs.Prelude.{◌≡◌};
ghost use Rattle.translator.specs.Filing.{room_answer};

use formula::Details;
use store::{Store, StoreFault};

// Asks a store for numbers up to `highest` and for `words` words, before anything is stored.
pub fn check_room<S: Store>(store: &S, highest: u64, words: u64) -> Result<(), StoreFault>
    ensures { result ≡ room_answer (S.Store.terms store.now) (S.Store.contents store.now) highest words }
{
    let largest = store.largest();
    if highest > largest {
        return Err(StoreFault::NumbersSpent(Details {
            first: highest,
            second: largest,
        }));
    }
    store.check_words(words)
}
