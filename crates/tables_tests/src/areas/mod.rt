//! What the crates of work areas promise their callers.

mod areas;
mod budgets;
mod indexes;
mod made;
mod moves;
mod play;
