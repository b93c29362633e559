//! What became of rows: how many of a table's rows were changed, removed and added, as they stood before and stand
//! after. Rows are counted as often as they stand there, and their places don't matter.
#![tactic(auto)]

mod comparing;

pub use comparing::{RowCounts, compare};
