// The mapping that speaks of a value by its own Boolean with a plus and by its inner literals with a minus: HR.
ghost use Rattle.mapping.specs.Meanings.{guarded};
ghost use Rattle.encodings.specs.Ties.{half_tied};
ghost use Rattle.encodings.proofs.TiedLaws.{half_tied_lawful};

use super::inner::{Inner, InnerLists};
use super::tied::Tied;
use encodings::write_form;
use formula::Sign;
use mapping::{AXIOM_WORDS, FORM_LITERALS, Mapping, Shape};

// A tied mapping whose minus form of a value is any of the opposites of its inner literals.
#[derive(Clone, Copy, Debug, PartialEq, Eq)]
pub struct HalfTied<M>(pub Tied<M>);

impl<M: Inner> Mapping for HalfTied<M> {
    ghost meaning = { guarded (half_tied M.meaning) };

    ghost lawful = { half_tied_lawful M.meaning M.tieable };

    fn width(&self, size: u32) -> u32 {
        self.0.width(size)
    }

    fn axioms(&self, size: u32, memory: &mut [i32; AXIOM_WORDS]) -> usize {
        self.0.axioms(size, memory)
    }

    fn form(&self, size: u32, sign: Sign, value: u32, places: &mut [i32; FORM_LITERALS]) -> Shape {
        match sign {
            Sign::Plus => self.0.form(size, sign, value, places),
            Sign::Minus => write_form(&InnerLists(self.0.0), size, sign, value, places),
        }
    }

    fn reading(&self, size: u32, bits: &[u8]) -> Option<u32> {
        self.0.reading(size, bits)
    }
}
