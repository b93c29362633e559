//! A table with its declared indexes.
#![tactic(auto)]

mod changes;
mod closing;
mod keyed;
mod opened;
mod passes;
mod refused;
mod row;
mod slot;
mod slots;
mod trying;

pub use opened::{AppendError, OpenTable};
pub use refused::Refused;
pub use row::Row;
