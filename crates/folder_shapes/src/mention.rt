//! Indexes that command files name.

use shape::Name;

/// An index that a command of a file names.
#[derive(Drop)]
pub struct Mention {
    /// The number of the file among the folder's names.
    pub file: usize,
    /// The number of the command's first line in the file, from 1.
    pub line: usize,
    /// The table that the file's lines show to be in use.
    pub table: Option<Name>,
    /// The index.
    pub index: Name,
    /// The key that INDEX ON gives it; none if the command only opens it.
    pub key: Option<WrittenKey>,
}

/// The key of an INDEX ON.
#[derive(Drop)]
pub struct WrittenKey {
    /// Its words in capitals without blanks between them.
    pub spelled: Vec<u8>,
    /// The whole command as it is written.
    pub command: Vec<u8>,
}

/// What is proposed for an index that a command file names and no index file declares.
#[derive(Clone, Copy, PartialEq, Eq, Debug)]
pub enum Proposal {
    /// This declaration, with the key and the table of the command.
    Declare,
    /// None, because the lines before the command don't show which table is in use.
    NoTable,
    /// None, because that table isn't declared.
    OtherTable,
    /// None, because the table can't have such a key.
    OtherKey,
    /// None, because an index can't have its name.
    OtherName,
    /// A declaration without a key, because no INDEX ON of the folder makes the index.
    NoKey,
}
