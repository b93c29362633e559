//! The screen of a run: 25 rows of 80 columns, and the bytes that were sent out.
//!
//! Rows that scroll out, rows cleared and the rows left at the end are sent, each without the blanks at its end and
//! with LF. `Screen` is what a machine uses, `run` a whole list of commands, and `laws` what holds after every list.
#![tactic(auto)]

mod commands;
mod cursor;
mod display;
pub mod laws;
mod rows;
mod screen;

pub use commands::{ScreenCommand, obey, run};
pub use cursor::Cursor;
pub use rows::ScreenRow;
pub use screen::Screen;
