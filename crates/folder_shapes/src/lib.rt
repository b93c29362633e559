//! What the tables and indexes of a folder declare.
//!
//! `declare` takes a folder's names and tells of each table and each index how it is declared, or why it can't be. An
//! index is one of the only table whose text fields make its key; among several, of the only one whose rows it lists.
//! Of an index that the command files of the folder name, and that no file declares, it proposes a declaration.
#![tactic(auto)]

mod declared;
mod folder;
mod found;
mod indexes;
mod joining;
mod keys;
mod line;
mod mention;
mod mentions;
mod names;
mod note;
mod owners;
mod pages;
mod proposals;
mod reader;
mod reading;
mod tables;
mod told;
mod unfit;

pub use declared::FolderDeclared;
pub use folder::{declare, table_file};
pub use found::FoundTable;
pub use line::FolderLine;
pub use mention::{Mention, Proposal, WrittenKey};
pub use note::Note;
pub use told::LineTold;
pub use unfit::Unfit;
