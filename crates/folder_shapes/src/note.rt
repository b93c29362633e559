//! Why a file of a folder isn't declared.

use dbf_file::DbfFault;
use ndx_tree::TreeFault;
use thiserror::Error;

/// Why a file isn't declared, and what is noted of an index that is.
#[derive(Clone, Copy, PartialEq, Eq, Debug, Error)]
pub enum Note {
    /// Its name is no text.
    #[error("the name is no UTF-8")]
    NoText,
    /// Its name has small letters, and would do without them.
    #[error("small letters")]
    SmallLetters,
    /// No table or index can have its name.
    #[error("no name of up to eight capitals, digits and underscores, a letter first")]
    NoName,
    /// There is none of that name any more.
    #[error("it is gone")]
    Gone,
    /// It is longer than 64 MiB.
    #[error("longer than 64 MiB")]
    TooLong,
    /// The device failed.
    #[error("it can't be read")]
    Unreadable,
    /// It begins with this byte in place of a 3.
    #[error("version byte {0}")]
    Version(u8),
    /// It is no table's file.
    #[error("no table ({0})")]
    NoTable(DbfFault),
    /// It would be the 33rd table or the 65th index.
    #[error("one more than can be declared")]
    TooMany,
    /// It is no index file.
    #[error("no index ({0})")]
    NoIndex(TreeFault),
    /// Its keys are numbers.
    #[error("key of numbers")]
    Numbers,
    /// No table's text fields make its key.
    #[error("no table here has text fields that make its key")]
    NoOwner,
    /// Text fields of several tables make its key, and it lists the rows of none or of several of them.
    #[error("several tables have text fields that make its key")]
    ManyOwners,
    /// It is declared, and doesn't list its table's rows.
    #[error("stale, made anew when it is opened")]
    Stale,
}
