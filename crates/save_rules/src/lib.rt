//! What a save may do to files: which of them can be replaced as they were, which names are those of files in the
//! folder, and what a code file must not overwrite.
#![tactic(auto)]

mod overwriting;
mod recorded;
mod rules;
mod unchanged;

pub use overwriting::{Overwritten, overwritten_by};
pub use recorded::{MOST_RECORDED, Recorded, may_be_recorded, recorded_as};
pub use rules::{
    FileFolder, Harm, Standing, User, harm_of, is_beside, is_in_folder, may_make_files,
};
pub use unchanged::{HandedIn, files_replaced};
