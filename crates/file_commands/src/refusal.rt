//! Why a command isn't carried out.

use dbf_file::DbfFault;
use ndx_tree::TreeFault;
use thiserror::Error;
use xcode::CodeFault;

/// What is wrong with a file.
#[derive(Clone, Copy, PartialEq, Eq, Debug, Error)]
pub enum Fault {
    /// There is none of that name.
    #[error("Absent")]
    Absent,
    /// It is longer than 64 MiB.
    #[error("TooLong")]
    TooLong,
    /// It is no code file.
    #[error("{0}")]
    OfCode(CodeFault),
    /// It is no table's file.
    #[error("{0}")]
    OfTable(DbfFault),
    /// It is no index file.
    #[error("{0}")]
    OfIndex(TreeFault),
}

/// Why a command isn't carried out: a file's fault, a failure of the device, or want of memory. A file is named as the
/// command names it.
#[derive(Clone, Copy, PartialEq, Eq, Debug, Error)]
pub enum Refusal<'a> {
    #[error("refused {name} {fault}")]
    Refused { name: &'a str, fault: Fault },
    #[error("disk {name}")]
    Disk { name: &'a str },
    #[error("memory")]
    Memory,
}
