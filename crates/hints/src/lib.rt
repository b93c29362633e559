//! What to do about a refusal: a sentence for each fault of a command file or a declaration file, and for each command
//! that is left out of the language. Sentences have no point at their end.
#![tactic(auto)]

mod areas;
mod kinds;
mod left_out;
mod line;
mod tables;

pub use areas::{AreasHint, Chosen, of_areas};
pub use kinds::{of_command, of_declaration, of_table_note};
pub use left_out::LeftOut;
pub use line::{of_compiled_line, of_line};
pub use tables::of_table_line;
