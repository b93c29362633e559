//! The lines of a command file, each by itself: which command its words begin, what it says, and which fault it has.
#![tactic(auto)]

mod forms;
mod reader;
mod reading;
mod role;
mod statement;
mod verb;

pub use crate::reading::{ReadLine, lines_are_read, one_saying, read_line};
pub use crate::role::Role;
pub use crate::statement::{Move, Replacement, Selected, Sentence, Statement, Toggle};
pub use crate::verb::one_command;
pub use prg_expr::{ParseFaultKind, least};
