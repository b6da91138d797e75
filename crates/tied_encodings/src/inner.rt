// The mappings to which a Boolean for each value can be tied.
ghost use Rattle.encodings.specs.Ties.{Tieable, inner_list};
ghost use Rattle.encodings.proofs.LogarithmicLaws.{full_logarithmic_tieable};
ghost use Rattle.encodings.proofs.RegularLaws.{full_regular_tieable};
ghost use Rattle.tied_encodings.specs.Narrow.{inner_narrow};

use super::moves::move_few;
use arrayvec::ArrayVec;
use encodings::{FullRegular, Listed};
use formula::Sign;
use full_encodings::FullLogarithmic;
use mapping::{Choice, FORM_LITERALS, HeldForm, Mapping};

// A mapping whose plus forms ask for all of their literals, and beside which there is room for the values and their ties.
pub trait Inner: Mapping + Copy {
    ghost tieable: { Tieable Self.meaning };
}

impl Inner for FullLogarithmic {
    ghost tieable = { full_logarithmic_tieable };
}

impl Inner for FullRegular {
    ghost tieable = { full_regular_tieable };
}

// The literals of each value's plus form in an inner mapping, behind the Booleans of the values.
#[derive(Clone, Copy)]
pub(crate) struct InnerLists<M>(pub(crate) M);

impl<M: Inner> Listed for InnerLists<M> {
    ghost list = { inner_list M.meaning };

    ghost narrow = { inner_narrow M.meaning M.tieable };

    fn literals(&self, choice: Choice) -> ArrayVec<i32, FORM_LITERALS> {
        let Choice { size, value } = choice;
        let mut literals = HeldForm::ask(&self.0, size, Sign::Plus, value).literals;
        move_few(literals.as_mut_slice(), size);
        literals
    }
}
