// Why a workbook refuses a call.
ghost use Rattle.std.specs.Prelude.{◌≡◌};
ghost use Rattle.workbook.specs.declared.faults.WorkbookFault.TheVariants.{Store as of_store};
ghost use Rattle.workbook.specs.Faults.{refusal_of};

use formula::{Details, Reason, Refusal};
use store::StoreFault;

// A fault with the details that it names, where it names any.
#[derive(Clone, Copy, Debug, PartialEq, Eq)]
pub enum WorkbookFault {
    Size(Details),
    NamesSpent,
    Long(Details),
    Stranger(Details),
    Value(Details),
    SheetFull,
    Store(StoreFault),
}

// A fault as it is printed.
impl From<WorkbookFault> for Refusal {
    ghost from_gives = { λ e r. r ≡ refusal_of e };

    fn from(fault: WorkbookFault) -> Refusal {
        let (reason, details) = match fault {
            WorkbookFault::Size(details) => (Reason::Size, details),
            WorkbookFault::NamesSpent => (Reason::NamesSpent, Details::default()),
            WorkbookFault::Long(details) => (Reason::Long, details),
            WorkbookFault::Stranger(details) => (Reason::Stranger, details),
            WorkbookFault::Value(details) => (Reason::Value, details),
            WorkbookFault::SheetFull => (Reason::SheetFull, Details::default()),
            WorkbookFault::Store(fault) => return Refusal::from(fault),
        };
        Refusal { reason, details }
    }
}

// A store's fault goes up as it is.
impl From<StoreFault> for WorkbookFault {
    ghost from_gives = { λ e r. r ≡ of_store e };

    fn from(fault: StoreFault) -> WorkbookFault {
        WorkbookFault::Store(fault)
    }
}
