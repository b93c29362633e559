//! The rows of a run's screen as a terminal is sent them: drawn as they stand, or as the lines that changed.
//!
//! A terminal obeys control bytes. So bytes of rows reach it by `put_shown` alone, which sends none.
#![tactic(auto)]

mod drawing;
mod fields;
mod plain;
mod printable;

pub use drawing::{Drawing, Window, drawn, left};
pub use fields::{ShownField, lay_over};
pub use plain::{plain_lines, sent_lines};
pub use printable::put_shown;
