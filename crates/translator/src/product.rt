// Every clause of a product of forms, put into a store.
ghost use Rattle.std.specs.Prelude.{◌≡◌, ◌≤◌, [], map, length, Ok};
ghost use Rattle.formula.specs.Boolean.{words_of};
ghost use Rattle.mapping.specs.Forms.{distributed};
ghost use Rattle.translator.specs.Filing.{with_all};
ghost use Rattle.translator.specs.Placed.{form_in, Ready, product_behind};

use crate::clauses::CLAUSE_LITERALS;
use crate::placed::{PlacedForm, shift};
use arrayvec::ArrayVec;
use mapping::{FORM_LITERALS, Kind};
use store::{Store, StoreFault};

// A clause of a product has at most so many literals: those of each form.
const FRONT_LITERALS: usize = CLAUSE_LITERALS * FORM_LITERALS;

// The words of a product of at most 16 forms: as many clauses as the splits multiply to, each with its literals and one for its end.
pub(crate) fn count_words(forms: &[PlacedForm]) -> u64
    requires { length forms.now ≤ 16 }
    ensures { result ≡ words_of (distributed (map form_in forms.now)) }
{
    let clauses: u64 = forms.iter().map(PlacedForm::split).product();
    let literals: u64 = forms.iter().map(PlacedForm::taken).sum();
    clauses * (literals + 1)
}

// Puts every clause of the product of these forms, each behind the literals of `front`, which is left as it was.
// The store has been asked for room, so no put refuses.
fn put_product<S: Store>(
    store: &mut S,
    forms: &[PlacedForm],
    front: &mut ArrayVec<i32, FRONT_LITERALS>,
) -> Result<(), StoreFault>
    requires { Ready (S.Store.terms store.old) (S.Store.contents store.old) front.old.items forms.now }
    ensures answer { result ≡ Ok tt }
    ensures after { S.Store.contents store.new ≡ with_all (S.Store.terms store.old) (S.Store.contents store.old) (product_behind front.old.items forms.now) }
    ensures same { S.Store.terms store.new ≡ S.Store.terms store.old }
    ensures kept { front.new.items ≡ front.old.items }
{
    let [first, rest @ ..] = forms else {
        return store.put(front.as_mut_slice());
    };
    let literals = first.literals.as_slice();
    let used = front.len();
    // kept: a match, since a form of either kind takes another way from here.
    match first.kind {
        Kind::AllOf => {
            for choice in literals {
                front.push(shift(*choice, first.start));
                put_product(store, rest, front)?;
                front.pop();
            }
        }
        Kind::AnyOf => {
            for literal in literals {
                front.push(shift(*literal, first.start));
            }
            put_product(store, rest, front)?;
            front.truncate(used);
        }
    }
    Ok(())
}

// Puts every clause of the product of these forms.
// kept: a call of its own, so that the literals in front are filled with zeros once, and only where there is room.
pub(crate) fn put_all<S: Store>(store: &mut S, forms: &[PlacedForm]) -> Result<(), StoreFault>
    requires { Ready (S.Store.terms store.old) (S.Store.contents store.old) [] forms.now }
    ensures answer { result ≡ Ok tt }
    ensures after { S.Store.contents store.new ≡ with_all (S.Store.terms store.old) (S.Store.contents store.old) (product_behind [] forms.now) }
    ensures same { S.Store.terms store.new ≡ S.Store.terms store.old }
{
    put_product(store, forms, &mut ArrayVec::new())
}
