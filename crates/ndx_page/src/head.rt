//! Page 0 of an index file.

ghost use Rattle.std.specs.Prelude.{◌≤◌, Contains};

use arrayvec::ArrayVec;
use thiserror::Error;

/// The bytes of the longest key expression that page 0 has room for, its closing zero byte apart.
pub const MAX_TEXT: usize = 487;

/// What page 0 of an index file says.
#[derive(Debug, PartialEq, Eq, Drop)]
pub struct Head {
    /// The number of the page at which the tree begins.
    pub root: u32,
    /// The number of pages of the file, page 0 among them, as page 0 gives it: nobody tests it.
    pub pages: u32,
    /// The bytes of each key, 1 to 100.
    pub length: usize,
    /// The key expression: any bytes but zero, and there may be none.
    pub text: ArrayVec<u8, MAX_TEXT>,
    ghost some_key: { 1 ≤ length },
    ghost short_key: { length ≤ 100 },
    ghost no_zero: { ¬ (Contains text.items 0) },
}

/// Why bytes begin with no page 0. The first of several faults in this order is told.
#[derive(Clone, Copy, Debug, PartialEq, Eq, Error)]
pub enum HeadFault {
    /// There are fewer than 512 bytes.
    #[error("Short")]
    Short,
    /// The key type isn't 0, text.
    #[error("Kind")]
    Kind,
    /// The unique flag isn't 0.
    #[error("Unique")]
    Unique,
    /// The key length isn't one of 1 to 100.
    #[error("KeyLength")]
    KeyLength,
    /// The entry size isn't that of such keys.
    #[error("EntrySize")]
    EntrySize,
    /// The most entries of a page isn't that of such keys.
    #[error("PerPage")]
    PerPage,
    /// No zero byte ends the key expression within page 0.
    #[error("Expression")]
    Expression,
}
