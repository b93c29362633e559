//! What is told of files.

use crate::mention::Proposal;
use crate::note::Note;

/// What is told of a file.
#[derive(Clone, Copy, PartialEq, Eq, Debug)]
pub enum FolderLine {
    /// The table of that number is declared.
    Table(usize),
    /// The header of the table of that number names a code page by this byte.
    Page(usize, u8),
    /// The index of that number is declared.
    Index(usize),
    /// Something is noted of the file of that number among the folder's names.
    Noted(usize, Note),
    /// What is proposed for the mention of that number.
    Proposed(usize, Proposal),
    /// Of the indexes that command files name, the first 256 are listed.
    More,
}
