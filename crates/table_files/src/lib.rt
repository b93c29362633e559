//! Declared tables and indexes: loaded from files, and saved to them.
//!
//! A table's file is named NAME.DBF, an index's NAME.NDX. `load` makes a store of the files that a shape declares, and
//! `save` replaces them by what a store holds.
#![tactic(auto)]

mod fields;
pub mod laws;
mod lists;
mod loading;
mod names;
mod refusal;
mod saving;
mod tables;

pub use loading::load;
pub use names::FileName;
pub use refusal::{FilesRefusal, TableFault};
pub use saving::save;
