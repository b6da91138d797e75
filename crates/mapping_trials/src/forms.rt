// Forms of values in and out of range, with all of the places that they were written to.
use crate::sizes::values;
use crate::subject::{Formed, Subject, fillers};
use mapping::Mapping;
use reference::forms::Sign;
use reference::tally::Tally;
use std::alloc::AllocError;

impl<M: Mapping> Subject<M> {
    fn try_form(&self, tally: &mut Tally, value: u32, sign: Sign) -> Result<(), AllocError> {
        let form = self.coding.form(i64::from(value), sign);
        let mut places = fillers();
        for (place, literal) in places.iter_mut().zip(form.members()) {
            *place = i32::try_from(*literal).unwrap_or(0);
        }
        let wanted = Formed {
            kind: form.kind,
            count: form.count,
            places,
        };
        self.compare(tally, &(value, sign), &wanted, &self.form(value, sign))
    }

    pub fn try_forms(&self, tally: &mut Tally) -> Result<(), AllocError> {
        for value in values(tally.heap, self.size)?.iter() {
            self.try_form(tally, *value, Sign::Plus)?;
            self.try_form(tally, *value, Sign::Minus)?;
        }
        Ok(())
    }
}
