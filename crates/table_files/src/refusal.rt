//! Why tables and indexes aren't loaded or saved.

ghost use Rattle.std.specs.Prelude.{◌≡◌};

use crate::names::FileName;
use dbf_file::DbfFault;
use std::alloc::{AllocError, AllocFailed};
use thiserror::Error;

/// What is wrong with a table's file.
#[derive(Clone, Copy, Debug, PartialEq, Eq, Error)]
pub enum TableFault {
    /// There is none of that name.
    #[error("Absent")]
    Absent,
    /// It is longer than 64 MiB.
    #[error("TooLong")]
    TooLong,
    /// It is no table's file.
    #[error("{0}")]
    OfTable(DbfFault),
    /// Its fields aren't the declared ones.
    #[error("Structure")]
    Structure,
}

/// Why tables and indexes aren't loaded or saved: a fault of a table's file, a failure of the device, or want of
/// memory.
#[derive(Clone, Copy, Debug, PartialEq, Eq, Error)]
pub enum FilesRefusal {
    /// A table's file isn't taken.
    #[error("refused {name} {fault}")]
    Refused { name: FileName, fault: TableFault },
    /// The device failed at a file.
    #[error("disk {name}")]
    Disk { name: FileName },
    /// Memory was refused.
    #[error("memory")]
    Memory,
}

impl From<AllocError> for FilesRefusal {
    ghost use Rattle.table_files.specs.declared.refusal.FilesRefusal.TheVariants.{Memory};

    ghost from_gives = { λ _ e. e ≡ Memory };

    fn from(_: AllocError) -> FilesRefusal {
        FilesRefusal::Memory
    }
}

impl<T: Drop> From<AllocFailed<T>> for FilesRefusal {
    ghost use Rattle.table_files.specs.declared.refusal.FilesRefusal.TheVariants.{Memory};

    ghost from_gives = { λ _ e. e ≡ Memory };

    fn from(_: AllocFailed<T>) -> FilesRefusal {
        FilesRefusal::Memory
    }
}
