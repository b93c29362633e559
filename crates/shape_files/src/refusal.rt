//! Why a declaration file isn't read.

ghost use Rattle.std.specs.Prelude.{◌≡◌};
ghost use Rattle.shape_files.specs.declared.refusal.LineRefusal.TheVariants as line;

use shape::Name;
use std::alloc::{AllocError, AllocFailed};
use thiserror::Error;

/// What is wrong with a line. Of a line's faults the one that stands first here is told.
#[derive(Clone, Copy, PartialEq, Eq, Debug, Error)]
pub enum LineFault {
    /// It is neither `TABLE name` nor `INDEX name ON table KEY key`.
    #[error("Word")]
    Word,
    /// A table or an index can't have the name, another one has it, or no table has the name behind ON.
    #[error("Name")]
    Name,
    /// The key isn't one that rows of the table can have, or is spelled in more than 100 bytes.
    #[error("Key")]
    Key,
    /// It is a 33rd table or a 65th index.
    #[error("Limit")]
    Limit,
    /// The table's file is absent, longer than 64 MiB, or no table's.
    #[error("Table")]
    Table,
}

/// What is wrong with a declaration file.
#[derive(Clone, Copy, PartialEq, Eq, Debug, Error)]
pub enum DeclFault {
    /// There is none of that name.
    #[error("Absent")]
    Absent,
    /// It is longer than 64 MiB.
    #[error("TooLong")]
    TooLong,
    /// Its first faulty line, counted from 1.
    #[error("line {line} {fault}")]
    Line { line: usize, fault: LineFault },
}

/// Why no shape is read.
#[derive(PartialEq, Eq, Debug, Drop)]
pub enum ShapeRefusal {
    /// The declaration file is faulty.
    Refused(DeclFault),
    /// The device failed at the declaration file.
    Disk,
    /// The device failed at the file of the table of that name.
    TableDisk(Name),
    /// Memory ran out.
    Memory,
}

/// Why a line isn't taken.
#[derive(Debug, Drop)]
pub enum LineRefusal {
    Fault(LineFault),
    /// The device failed at the file of the table of that name.
    Disk(Name),
    Memory,
}

impl From<AllocError> for LineRefusal {
    ghost from_gives = { λ _ e. e ≡ line.Memory };

    fn from(_error: AllocError) -> LineRefusal {
        LineRefusal::Memory
    }
}

impl<T: Drop> From<AllocFailed<T>> for LineRefusal {
    ghost from_gives = { λ _ e. e ≡ line.Memory };

    fn from(_error: AllocFailed<T>) -> LineRefusal {
        LineRefusal::Memory
    }
}
