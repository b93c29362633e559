//! The plan and the note of a save, as they stand in their file.
//!
//! Both name each file that the save replaces and its new file, with the SHA-256 sums of what it held at the load and
//! of what it is to hold. The last 32 bytes are the sum of all before them, so that a paper that is cut short, or that
//! another program wrote, isn't taken for one.
#![tactic(auto)]

mod paper;
mod reading;
mod sums;
mod writing;

pub use paper::{PaperEntry, PaperError, SavePaper, WriteError};
pub use reading::read;
pub use sums::{may_begin_paper, sum_of};
pub use writing::write;
