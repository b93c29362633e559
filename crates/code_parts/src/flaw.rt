//! Why an item of a code file isn't read, and why one that is read isn't legal.

ghost use Rattle.std.specs.Prelude.{◌≡◌};
ghost use Rattle.code_parts.specs.declared.flaw.Unread.TheVariants.{Short, Memory};

use std::alloc::{AllocError, AllocFailed};
use thiserror::Error;

/// What is wrong with an item whose bytes are all there: the first flaw from the item's front.
#[derive(Clone, Copy, Debug, PartialEq, Eq)]
pub enum Flaw {
    /// A level is above its limit.
    Limit,
    /// An instruction's operation or one of its operands is unknown, or an operand that it has no use for isn't 0.
    Operation,
    /// Anything else that isn't as the format says.
    Shape,
}

/// Bytes of an item are missing.
#[derive(Clone, Copy, Debug, PartialEq, Eq)]
pub struct Missing;

/// Why an item isn't read.
#[derive(Clone, Copy, Debug, PartialEq, Eq, Error)]
pub enum Unread {
    /// Bytes of the item are missing.
    #[error("Short")]
    Short,
    /// Memory was refused.
    #[error("Memory")]
    Memory,
}

impl From<Missing> for Unread {
    ghost from_gives = { λ _ e. e ≡ Short };

    fn from(_missing: Missing) -> Unread {
        Unread::Short
    }
}

impl From<AllocError> for Unread {
    ghost from_gives = { λ _ e. e ≡ Memory };

    fn from(_error: AllocError) -> Unread {
        Unread::Memory
    }
}

impl<T: Drop> From<AllocFailed<T>> for Unread {
    ghost from_gives = { λ _ e. e ≡ Memory };

    fn from(_error: AllocFailed<T>) -> Unread {
        Unread::Memory
    }
}
