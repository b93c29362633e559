//! Declaration files: the tables and indexes that command files are compiled for.
//!
//! A line `TABLE name` declares a table, whose fields are those of the file NAME.DBF, and `INDEX name ON table KEY key`
//! an index of a table declared before it. Empty lines and those that begin with a star say nothing.
#![tactic(auto)]

mod declarations;
mod key;
mod line;
mod listing;
mod names;
mod reading;
mod refusal;
mod tables;

pub use listing::{ListedShape, list_shape};
pub use names::{FileName, file_of};
pub use reading::read_shape;
pub use refusal::{DeclFault, LineFault, ShapeRefusal};
pub use tables::capital_fields;
