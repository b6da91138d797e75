// Forms, held by their literals alone.
ghost use Rattle.std.specs.Prelude.{◌≡◌};
ghost use Rattle.mapping.specs.Forms.{kind_of, members};

use super::{FORM_LITERALS, Kind, Mapping};
use arrayvec::ArrayVec;
use formula::Sign;

// The kind of a form and its literals, over its variable's own Booleans.
#[derive(Drop)]
pub struct HeldForm {
    pub kind: Kind,
    pub literals: ArrayVec<i32, FORM_LITERALS>,
}

impl HeldForm {
    // The form of a literal with this sign and value, as the mapping has it.
    pub fn ask<M: Mapping>(mapping: &M, size: u32, sign: Sign, value: u32) -> HeldForm
        ensures kind { result.kind ≡ kind_of (M.Mapping.meaning.form size sign value) }
        ensures literals { result.literals.items ≡ members (M.Mapping.meaning.form size sign value) }
    {
        let mut places = [0; FORM_LITERALS];
        let shape = mapping.form(size, sign, value, &mut places);
        // kept: over all places, so as many turns at each call, which need no loop; what is cut off an ArrayVec is written over.
        let mut literals = ArrayVec::new();
        for (place, literal) in places.iter().enumerate() {
            if place < shape.count {
                literals.push(*literal);
            }
        }
        HeldForm {
            kind: shape.kind,
            literals,
        }
    }
}
