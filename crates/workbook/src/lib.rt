// A workbook: a sheet of variables and clauses, and the store that holds its translation.
#![tactic(auto)]

pub mod book;
pub mod faults;
pub mod sheet;

pub use book::{Parts, Workbook};
pub use faults::WorkbookFault;
pub use sheet::Sheet;
