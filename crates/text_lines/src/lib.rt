//! Lines of texts, and the lines that an operator typed.
#![tactic(auto)]

pub mod laws;
mod lines;
mod typed;

pub use lines::{first_line, is_ended, without_return};
pub use typed::TypedLines;
