//! Entries of lists of keys side by side in one row of bytes: each takes its key's length and four bytes.
#![tactic(auto)]

mod entries;

pub use entries::{Entries, is_key_before};
