//! Why bytes are no index file.

ghost use Rattle.std.specs.Prelude.{◌≡◌};

use std::alloc::AllocError;
use thiserror::Error;

/// Why bytes are no index file. The first of several faults is told: that of page 0, then those of the pages in the
/// order of a walk from the root, each page's children from the left, and then that of the order of the keys.
#[derive(Clone, Copy, Debug, PartialEq, Eq, Drop, Error)]
pub enum TreeFault {
    /// There is no page 0.
    #[error("Head")]
    Head,
    /// A page number is 0 or outside the file, or a page is reached twice.
    #[error("Reach")]
    Reach,
    /// A page's bytes are no page.
    #[error("Page")]
    Page,
    /// A page lies deeper than 20, or two leaves lie at two depths.
    #[error("Depth")]
    Depth,
    /// The pairs don't rise, or a separator doesn't stand between its two sides.
    #[error("Order")]
    Order,
    /// Memory is missing.
    #[error("Memory")]
    Memory,
}

impl From<AllocError> for TreeFault {
    ghost use Rattle.ndx_tree.specs.declared.fault.TreeFault.TheVariants.{Memory};

    ghost from_gives = { λ _ e. e ≡ Memory };

    fn from(_: AllocError) -> TreeFault {
        TreeFault::Memory
    }
}
