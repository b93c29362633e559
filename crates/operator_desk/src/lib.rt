//! The operator's desk: what a person or another program sees of a run in conversation and types for it, and what
//! stands beside the journal that keeps it.
#![tactic(auto)]

mod begun;
mod clock;
mod desk;
mod gets;
mod held_lines;
mod judging;
mod kept;
mod record;
mod repeated;
mod screens;
mod typing;
mod typist;

pub use begun::{Talk, TalkSave, page_word, talk_in};
pub use clock::local_day;
pub use desk::{Manner, OperatorDesk};
pub use gets::Gets;
pub use held_lines::{HeldLines, OwnLines};
pub use judging::{Again, Holds, NoValue, Wanted, asked_again, bad_answer};
pub use kept::KeptJournal;
pub use record::Record;
pub use repeated::{RepeatedOption, first_different, value_begun};
pub use screens::Screens;
pub use typist::{Answered, TakenLines, Typist};
