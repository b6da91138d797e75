// Which literals the text store takes.
ghost use Rattle.std.specs.Prelude.{◌≡◌, not};
ghost use Rattle.std.specs.List.{find};
ghost use Rattle.std.specs.Option.{option_copied};
ghost use Rattle.store.specs.Stores.{fits, unfit};
ghost use Rattle.text_store.specs.ByteStores.{byte_largest, numbers_answer};

use formula::Details;
use store::StoreFault;

// The largest number that a literal may have.
pub(crate) const LARGEST: u32 = 1_048_575;

// Whether a literal has a number from 1 to the largest.
fn is_fit(literal: i32) -> bool
    ensures { result ≡ fits byte_largest literal }
{
    (1..=LARGEST).contains(&literal.unsigned_abs())
}

// The first literal that does not fit.
// kept: a loop; by `find`, which counts on before it asks, a put of an empty clause takes twice the time.
fn first_unfit(clause: &[i32]) -> Option<&i32>
    ensures { option_copied result ≡ find (λ l. not (fits byte_largest l)) clause.now }
{
    for literal in clause {
        if !is_fit(*literal) {
            return Some(literal);
        }
    }
    None
}

// Refuses a clause by the number of its first literal that does not fit.
pub(crate) fn check_numbers(clause: &[i32]) -> Result<(), StoreFault>
    ensures { result ≡ numbers_answer (unfit byte_largest clause.now) }
{
    match first_unfit(clause) {
        Some(literal) => Err(StoreFault::NumbersSpent(Details {
            first: u64::from(literal.unsigned_abs()),
            second: u64::from(LARGEST),
        })),
        None => Ok(()),
    }
}
