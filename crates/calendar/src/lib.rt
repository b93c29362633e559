//! Days of the calendar: their parts and their order, the days so many days on, the names of weekdays and months, and
//! the dates that texts spell.
#![tactic(auto)]

mod calendar;
mod day;
pub mod laws;

pub use calendar::with_digits;
pub use day::{Day, DayParts};
