//! What became of a store's tables and indexes between two moments: how many rows of each table were changed, removed
//! and added, and which stale indexes were made anew.
#![tactic(auto)]

mod rows;
mod stores;

pub use row_changes::RowCounts;
pub use stores::{Changes, KeptStore, changes_since, keep};
