//! What a plan and a note say, and why a file is none.

ghost use Rattle.std.specs.Prelude.{◌≡◌};

use save_steps::Sum;
use std::alloc::{AllocError, AllocFailed};

/// A file that a save replaces.
#[derive(Drop)]
pub struct PaperEntry {
    /// The file's name.
    pub name: Vec<u8>,
    /// The name of its new file.
    pub beside: Vec<u8>,
    /// The sum of what it held at the load, none where there was no such file.
    pub old: Option<Sum>,
    /// The sum of what it is to hold.
    pub new: Sum,
}

/// A plan or a note.
#[derive(Drop)]
pub struct SavePaper {
    /// Whether it is a note.
    pub noted: bool,
    /// The files, in the order in which they are replaced.
    pub entries: Vec<PaperEntry>,
}

/// Why a file isn't read as a plan or a note.
#[derive(Clone, Copy)]
pub enum PaperError {
    /// Memory was refused.
    Memory,
    /// It is none, or it is cut short.
    Foreign,
}

impl From<AllocError> for PaperError {
    ghost use Rattle.save_papers.specs.declared.paper.PaperError.TheVariants.{Memory};

    ghost from_gives = { λ _ e. e ≡ Memory };

    fn from(_: AllocError) -> PaperError {
        PaperError::Memory
    }
}

impl<T: Drop> From<AllocFailed<T>> for PaperError {
    ghost use Rattle.save_papers.specs.declared.paper.PaperError.TheVariants.{Memory};

    ghost from_gives = { λ _ e. e ≡ Memory };

    fn from(_: AllocFailed<T>) -> PaperError {
        PaperError::Memory
    }
}

/// Why no text of a plan or a note is made.
#[derive(Clone, Copy)]
pub enum WriteError {
    /// Memory was refused.
    Memory,
    /// A name or the list of files is too long.
    Long,
}

impl From<AllocError> for WriteError {
    ghost use Rattle.save_papers.specs.declared.paper.WriteError.TheVariants.{Memory};

    ghost from_gives = { λ _ e. e ≡ Memory };

    fn from(_: AllocError) -> WriteError {
        WriteError::Memory
    }
}

impl<T: Drop> From<AllocFailed<T>> for WriteError {
    ghost use Rattle.save_papers.specs.declared.paper.WriteError.TheVariants.{Memory};

    ghost from_gives = { λ _ e. e ≡ Memory };

    fn from(_: AllocFailed<T>) -> WriteError {
        WriteError::Memory
    }
}
