//! What stands beside the journal of a conversation: how it was begun, and how it came to its end.
//!
//! Both are texts in TOML, so that a person can read them. Each says words under keys: the day and the budget of the
//! run, say, and the SHA-256 sum of each file, which stands under the file's name.
#![tactic(auto)]

mod paper;
mod sums;

pub use paper::{JournalPaper, PaperFault};
pub use sums::{FileSum, first_changed};
