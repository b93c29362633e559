//! Lists of keys with record numbers, in order.
//!
//! An index is a list of pairs of a key and a record number, ordered by the keys' bytes, and pairs of one key by
//! rising record number. `KeyList` says what such a list does, whatever keeps it; `SortedKeys` keeps it in a vector.
#![tactic(auto)]

mod bytes;
mod entry;
mod key_list;
pub mod laws;
mod sorted_keys;

pub use bytes::held;
pub use entry::Entry;
pub use key_list::KeyList;
pub use sorted_keys::{SortedKeys, put_in_order};
