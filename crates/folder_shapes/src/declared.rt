//! What is declared.

use crate::found::FoundTable;
use crate::line::FolderLine;
use crate::mention::Mention;
use shape::{IndexShape, TableShape};

/// The tables and indexes of a folder that are declared, and what is told of each file.
#[derive(Drop)]
pub struct FolderDeclared {
    pub tables: Vec<TableShape>,
    /// The same tables with their rows.
    pub found: Vec<FoundTable>,
    pub indexes: Vec<IndexShape>,
    /// The indexes that command files name.
    pub mentions: Vec<Mention>,
    pub lines: Vec<FolderLine>,
}
