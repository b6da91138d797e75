// What a mapping and the places of the variables make of a clause.
// kept: `as` from or to usize and i32, which have no From; each is proved to lose nothing.
ghost use Rattle.std.specs.Prelude.{◌≡◌, ◌≤◌, [], ◌∷◌, length, map};
ghost use Rattle.translator.specs.Places.{place_at, form_at, reach};
ghost use Rattle.translator.specs.Placed.{form_in};

use crate::clauses::CLAUSE_LITERALS;
use crate::placed::PlacedForm;
use crate::places::Place;
use arrayvec::ArrayVec;
use formula::Literal;
use mapping::{HeldForm, Mapping};

// A mapping, and where the Booleans of the declared variables lie.
#[derive(Drop)]
pub(crate) struct Layout<'a, M> {
    pub(crate) mapping: &'a M,
    pub(crate) places: &'a [Place],
}

impl<M: Mapping> Layout<'_, M> {
    // The place of a variable, and no place where there is none of its number.
    // kept: a place of size 0 and no Option, since the definition has it so, and its form is any of nothing.
    fn place(&self, variable: u32) -> Place
        ensures { result ≡ place_at self.now.places.now variable }
    {
        let index = (variable as usize).saturating_sub(1);
        self.places.get(index).copied().unwrap_or_default()
    }

    // The form of a literal, as the mapping has it.
    fn form(&self, literal: &Literal) -> PlacedForm
        ensures { form_in result ≡ form_at M.Mapping.meaning self.now.places.now literal.now }
    {
        let place = self.place(literal.variable);
        let HeldForm { kind, literals } = HeldForm::ask(
            self.mapping,
            place.size,
            literal.sign,
            literal.value,
        );
        PlacedForm {
            literals,
            start: place.start,
            kind,
        }
    }

    // Puts the forms of the literals of a clause into a vector that holds none, in order: one for each.
    // kept: the vector is handed in, since one that is answered is copied twice on its way out.
    // kept: that there are at most 16 is asked here and where words are counted; a slice that knows it would be a type more.
    pub(crate) fn load_forms(
        &self,
        literals: &[Literal],
        forms: &mut ArrayVec<PlacedForm, CLAUSE_LITERALS>,
    )
        requires few { length literals.now ≤ 16 }
        requires none { forms.old.items ≡ [] }
        ensures { map form_in forms.new.items ≡ map (form_at M.Mapping.meaning self.now.places.now) literals.now }
    {
        for literal in literals {
            forms.push(self.form(literal));
        }
    }

    // The number of the last Boolean of the variable of a literal.
    fn last(&self, literal: &Literal) -> u64
        ensures { result ≡ reach M.Mapping.meaning self.now.places.now (literal.now ∷ []) }
    {
        let place = self.place(literal.variable);
        u64::from(place.start) + u64::from(self.mapping.width(place.size))
    }

    // The number of the last Boolean of the variables that the literals name.
    pub(crate) fn reach(&self, literals: &[Literal]) -> u64
        ensures { result ≡ reach M.Mapping.meaning self.now.places.now literals.now }
    {
        literals
            .iter()
            .map(|literal| self.last(literal))
            .max()
            .unwrap_or(0)
    }
}
