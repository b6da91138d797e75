// A signed clause, stored.
ghost use Rattle.std.specs.Prelude.{◌≡◌, take};
ghost use Rattle.translator.specs.Filing.{clause_answer, after_all};
ghost use Rattle.translator.specs.Places.{placed_clause};

use crate::layout::Layout;
use crate::places::Place;
use crate::product::{count_words, put_all};
use crate::room::check_room;
use arrayvec::ArrayVec;
use formula::Literal;
use mapping::Mapping;
use store::{Store, StoreFault};

// The most literals of a clause.
pub const CLAUSE_LITERALS: usize = 16;

// Stores what a clause is translated to, which is taken to have no more than its first 16 literals: all of it, or nothing.
pub fn file_clause<M: Mapping, S: Store>(
    mapping: &M,
    store: &mut S,
    places: &[Place],
    literals: &[Literal],
) -> Result<(), StoreFault>
    ensures answer { result ≡ clause_answer M.Mapping.meaning (S.Store.terms store.old) (S.Store.contents store.old) places.now (take 16 literals.now) }
    ensures after { S.Store.contents store.new ≡ after_all result (S.Store.terms store.old) (S.Store.contents store.old) (placed_clause M.Mapping.meaning places.now (take 16 literals.now)) }
    ensures same { S.Store.terms store.new ≡ S.Store.terms store.old }
{
    let literals = &literals[..CLAUSE_LITERALS.min(literals.len())];
    let layout = Layout { mapping, places };
    let mut forms = ArrayVec::new();
    layout.load_forms(literals, &mut forms);
    let product = forms.as_slice();
    check_room(store, layout.reach(literals), count_words(product))?;
    put_all(store, product)
}
