// Why a line is refused.
ghost use Rattle.std.specs.Prelude.{◌≡◌};
ghost use Rattle.reader.specs.declared.faults.LineFault.TheVariants.{Workbook as of_workbook};
ghost use Rattle.reader.specs.Faults.{refusal_of};

use formula::{Details, Reason, Refusal};
use workbook::WorkbookFault;

#[derive(Clone, Copy, Debug, PartialEq, Eq)]
pub enum LineFault {
    Line,
    Workbook(WorkbookFault),
}

impl From<LineFault> for Refusal {
    ghost from_gives = { λ e r. r ≡ refusal_of e };

    fn from(fault: LineFault) -> Refusal {
        match fault {
            LineFault::Line => Refusal {
                reason: Reason::Line,
                details: Details::default(),
            },
            LineFault::Workbook(fault) => Refusal::from(fault),
        }
    }
}

// A workbook's fault goes up as it is.
impl From<WorkbookFault> for LineFault {
    ghost from_gives = { λ e r. r ≡ of_workbook e };

    fn from(fault: WorkbookFault) -> LineFault {
        LineFault::Workbook(fault)
    }
}
