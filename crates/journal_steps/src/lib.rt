//! What becomes of a conversation by what stands of it in the folder, and what follows of it.
//!
//! What the operator types is kept in a journal, line by line, before the machine takes it. Beside it stands a text of
//! how the conversation was begun, and at its end one of how it ended. A note tells of a save that isn't at its end.
#![tactic(auto)]

pub mod laws;
mod next;

pub use next::{Next, Remains, next_of};
