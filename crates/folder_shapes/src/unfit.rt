//! Why a file isn't taken.

use crate::note::Note;
use std::alloc::{AllocError, AllocFailed};

/// Why a file isn't taken: what is noted of it, or want of memory.
#[derive(Clone, Copy, Debug)]
pub enum Unfit {
    Noted(Note),
    Memory,
}

impl From<AllocError> for Unfit {
    ghost use Rattle.std.specs.Prelude.{◌≡◌};
    ghost use Rattle.folder_shapes.specs.declared.unfit.Unfit.TheVariants.{Memory};

    ghost from_gives = { λ _ e. e ≡ Memory };

    fn from(_: AllocError) -> Unfit {
        Unfit::Memory
    }
}

impl<T: Drop> From<AllocFailed<T>> for Unfit {
    ghost use Rattle.std.specs.Prelude.{◌≡◌};
    ghost use Rattle.folder_shapes.specs.declared.unfit.Unfit.TheVariants.{Memory};

    ghost from_gives = { λ _ e. e ≡ Memory };

    fn from(_: AllocFailed<T>) -> Unfit {
        Unfit::Memory
    }
}
