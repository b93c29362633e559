//! Keys of rows, and the indexes of a table kept in step with its rows.
//!
//! A key is one to eight C fields of a row joined, each as it stands or in capitals (`KeyParts`). An index lists each
//! row's key with the row's number, counted from 1, marked rows included (`specs/Lists`). Over any `KeyList`, `add_row` puts a
//! new row's pair in, `follow` goes along with a row that changes, and `build_of` makes a list anew from a table's rows.
//! What follows of these lists from their definition is in `laws`.
#![tactic(auto)]

mod building;
pub mod exact;
mod in_step;
mod key_change;
pub mod laws;

pub use building::{Kept, build_of, keeps};
pub use in_step::{add_row, follow};
pub use shape::{KeyPart, KeyParts};
