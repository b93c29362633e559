//! The steps of a save that is all or nothing, and those that finish one which was stopped.
//!
//! A save first writes a plan that names the new files, then these files, each beside the one that it is to replace,
//! and then a note that takes the plan's place: from then on the save counts. Then each new file takes its file's
//! place, and the note goes. Whoever comes next takes all away where a plan stands, and goes on where a note stands.
//! Between these a sync of the folder brings to the device what the next step relies on, since a power cut may leave
//! any of the changes of names that were made after the last sync.
#![tactic(auto)]

pub mod laws;
mod order;
mod slots;
mod steps;

pub use order::{steps_of_finish, steps_of_save};
pub use slots::{Slot, Sum, first_foreign, slot_of};
pub use steps::{Paper, Step};
