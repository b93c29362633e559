//! Journals: lines of an operator are kept before a run sees them.
#![tactic(auto)]

mod kept;

pub use kept::{Journal, JournalFailed, KeptLine, NotKept, keep};
