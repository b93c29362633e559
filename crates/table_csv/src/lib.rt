//! Tables as comma-separated values, for spreadsheets and databases.
//!
//! The first line has the fields' names, and before them `DELETED`, the name of the column of marks. `specs/Cells` says
//! what stands in each cell.
#![tactic(auto)]

mod cells;
mod listing;
mod writing;

pub use listing::list_csv;
pub use writing::csv_of;
