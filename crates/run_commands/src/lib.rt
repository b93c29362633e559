//! What `run` and `check-run` do with files: a code is read, its tables are loaded, it is run, and the tables are
//! saved.
//!
//! Files are reached through the trait `Files`, so that the same functions serve a folder of the disk and files in
//! memory.
#![tactic(auto)]

mod conversation;
mod ending;
mod job;
mod machines;
mod refusal;
mod rehearsed_talk;
mod rehearsing;
mod running;
mod testing;

pub use crate::conversation::{OperateRefusal, OperationReport, operate_files};
pub use crate::ending::{Ended, How};
pub use crate::job::{Job, RecordLimit, RunDay};
pub use crate::refusal::{RunRefusal, ToldRefusal};
pub use crate::rehearsed_talk::rehearse_talk;
pub use crate::rehearsing::{Rehearsal, rehearse_files, rehearse_files_watched};
pub use crate::running::{Report, run_files, run_files_watched};
pub use operating::{FIRST_PART, Unwatched, Watcher, next_part};
pub use table_changes::{Changes, RowCounts};
