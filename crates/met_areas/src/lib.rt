//! The work areas at a command, as they are told: the tables that they hold, by their names.
#![tactic(auto)]

mod areas;

pub use areas::{HeldTable, MetAreas, met_areas};
