//! What a code declares of files: its tables with their fields, its indexes with their keys, and lists of indexes that
//! are opened together.
//!
//! Each declaration has a test of what is legal, by a definition of `specs/`: `TableShape::is_next`,
//! `IndexShape::is_next`, `IndexList::is_list`, and for a whole shape `Shape::is_legal`. `KeyParts` makes a row's key.
#![tactic(auto)]

mod indexes;
mod items;
pub mod laws;
mod lists;
mod names;
mod parts;
mod tables;
mod whole;

pub use indexes::IndexShape;
pub use items::Items;
pub use lists::{IndexList, is_among};
pub use names::{Name, copy_of_name, is_file_name};
pub use parts::{KeyPart, KeyParts, put_text};
pub use tables::TableShape;
pub use whole::Shape;
