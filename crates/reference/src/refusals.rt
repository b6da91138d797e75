// Why a line is refused.
use std::alloc::{AllocError, AllocFailed};
use std::fmt;

// A refusal, as a number, a letter and two details: of a size, or of too many variables; of too many literals; of the first literal
// that has no variable or no value; of too many entries; of more words than are left; of a line that cannot be read.
#[derive(Clone, Copy)]
pub enum Refused {
    Size(i64),
    Variables,
    Literals(usize),
    Stranger { place: usize },
    Value { place: usize },
    Entries,
    Words { wanted: i64, left: i64 },
    Unreadable,
}

impl fmt::Display for Refused {
    fn fmt<W: fmt::Write>(&self, f: &mut fmt::Formatter<W>) -> fmt::Result {
        match self {
            Refused::Size(size) => write!(f, "1 W {size} 0"),
            Refused::Variables => write!(f, "2 W 0 0"),
            Refused::Literals(count) => write!(f, "3 W {count} 0"),
            Refused::Stranger { place } => write!(f, "4 W {place} 0"),
            Refused::Value { place } => write!(f, "5 W {place} 0"),
            Refused::Entries => write!(f, "6 W 0 0"),
            Refused::Words { wanted, left } => write!(f, "8 S {wanted} {left}"),
            Refused::Unreadable => write!(f, "15 L 0 0"),
        }
    }
}

// Why a line is not entered.
#[derive(Clone, Copy)]
pub enum Fault {
    Refused(Refused),
    Memory(AllocError),
}

impl From<Refused> for Fault {
    fn from(refused: Refused) -> Fault {
        Fault::Refused(refused)
    }
}

impl From<AllocError> for Fault {
    fn from(error: AllocError) -> Fault {
        Fault::Memory(error)
    }
}

impl<T: Drop> From<AllocFailed<T>> for Fault {
    fn from(error: AllocFailed<T>) -> Fault {
        Fault::Memory(AllocError::from(error))
    }
}

impl Fault {
    // What is left of it where what there is no memory for is lost.
    pub(crate) fn lost(self) -> Result<(), Refused> {
        match self {
            Fault::Refused(refused) => Err(refused),
            Fault::Memory(_) => Ok(()),
        }
    }
}
