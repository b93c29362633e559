//! Why bytes are no code file.

ghost use Rattle.std.specs.Prelude.{◌≡◌};
ghost use Rattle.xcode.specs.declared.fault.CodeFault.TheVariants.{Memory};
ghost use Rattle.xcode.specs.Decoding.{flaw_fault};

use code_parts::Flaw;
use std::alloc::{AllocError, AllocFailed};
use thiserror::Error;

/// What is wrong with a code file: the first fault from the front, and within one item the least. An item is the
/// header, or one table, index, list, constant, filter, procedure, map or instruction.
#[derive(Clone, Copy, Debug, PartialEq, Eq, Error)]
pub enum CodeFault {
    /// The first four bytes are missing, or aren't `XBCF`.
    #[error("Magic")]
    Magic,
    /// The next two bytes are missing, or say another version than 1 and 2.
    #[error("Version")]
    Version,
    /// An item's bytes are missing.
    #[error("Short")]
    Short,
    /// A number of the header or a level is above its limit, or there is no procedure or no instruction.
    #[error("Limit")]
    Limit,
    /// An instruction's operation or kind is unknown, or an operand that it has no use for isn't 0.
    #[error("Operation")]
    Operation,
    /// Anything else that isn't as the format says.
    #[error("Shape")]
    Shape,
    /// Bytes stand behind the last instruction.
    #[error("Extra")]
    Extra,
    /// Memory was refused.
    #[error("Memory")]
    Memory,
}

impl From<AllocError> for CodeFault {
    ghost from_gives = { λ _ e. e ≡ Memory };

    fn from(_error: AllocError) -> CodeFault {
        CodeFault::Memory
    }
}

impl<T: Drop> From<AllocFailed<T>> for CodeFault {
    ghost from_gives = { λ _ e. e ≡ Memory };

    fn from(_error: AllocFailed<T>) -> CodeFault {
        CodeFault::Memory
    }
}

impl CodeFault {
    /// The fault of an item with this flaw.
    pub(crate) fn of(flaw: Flaw) -> CodeFault
        ensures { result ≡ flaw_fault flaw }
    {
        match flaw {
            Flaw::Limit => CodeFault::Limit,
            Flaw::Operation => CodeFault::Operation,
            Flaw::Shape => CodeFault::Shape,
        }
    }
}
