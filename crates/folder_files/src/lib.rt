//! The files of a folder of the disk, as the trait `Files` asks for them, and a folder whose files are replaced all
//! together or not at all.
#![tactic(auto)]

mod backup;
mod disk;
mod finishing;
mod folder;
mod journal;
mod lock;
mod lock_file;
mod opening;
mod papers;
mod real_run;
mod recorded;
mod replacing;
mod saving;
mod seen;
mod targets;
mod user;

pub use backup::may_take_copies;
pub use disk::put_new_file;
pub use finishing::{FinishedSave, UnfinishedSave, finish, forget, paper_name};
pub use folder::{Doing, Folder, Listener, Nobody};
pub use journal::{JournalFault, JournalFile, Tail, TakenUp, stands};
pub use journal_papers::FileSum;
pub use lock::{Held, Hold, let_go, take_folder};
pub use lock_file::{LOCK_FILE, LockFile, LockKept, remove_lock_file};
pub use papers::{hindered_plan, note_stands, save_stands};
pub use real_run::{RealEnd, real_end};
pub use replacing::Unreplaced;
pub use save_papers::sum_of;
pub use save_rules::Harm;
pub use save_steps::Sum;
pub use saving::{SaveTerms, SavingFolder, Unsaved};
pub use seen::{SeenFolder, Unseen};
pub use targets::{Hindrance, behind_links, is_same_file, name_in_folder};
