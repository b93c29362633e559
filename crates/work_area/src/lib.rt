//! The ten work areas over the declared tables.
//!
//! `Store` has each declared table with its indexes, the ten areas, and the selected one. A work area is closed, or
//! holds a table, the list of indexes that was opened with it, and a filter.
#![tactic(auto)]

pub mod handed;
pub mod laws;
mod store;
mod tables;
mod uses;

pub use open_table::{AppendError, Refused, Row};
pub use row_moves::Spent;
pub use store::{MOST_RECORDS, Moved, Store};
pub use uses::Use;
