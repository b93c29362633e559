//! Runs of accepted code that somebody watches, or whose lines an operator types while they go on.
//!
//! A run that is watched goes on in parts, and comes to the same end as the run at once, at the same cost, with the
//! same banks. So does a conversation, over all lines that its journal holds at the end.
#![tactic(auto)]

mod asking;
pub mod laws;
mod operator;
mod pace;
mod pieces;
mod silence;
mod taking;
mod talking;
mod watcher;

pub use machine::ShownAt;
pub use operator::{Answer, Broken, FieldSize, Operator, OperatorFailed, Scene};
pub use pace::{FIRST_PART, next_part};
pub use taking::{RunPart, is_last, is_spent, lesser, run_in_parts, wider};
pub use talking::{EndedTalk, MOST_GIVEN, MOST_TYPED, can_go_on, converse, typed};
pub use watcher::{Unwatched, Watcher};
