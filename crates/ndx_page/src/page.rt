//! A page of entries.

use crate::layout::{MAX_ENTRIES, MAX_KEY};
use arrayvec::ArrayVec;
use thiserror::Error;

/// An entry of a page.
#[derive(Debug, Default, PartialEq, Eq, Drop)]
pub struct PageEntry {
    /// The number of the page below and before this entry, 0 in a leaf.
    pub child: u32,
    /// The number of the table's record, from 1 on in a leaf; in an inner page nobody tests it.
    pub number: u32,
    /// The key, without the bytes that pad it.
    pub key: ArrayVec<u8, MAX_KEY>,
}

/// A page: a leaf, where each child is 0, or an inner page, where none is.
#[derive(Debug, PartialEq, Eq, Drop)]
pub struct Page {
    /// The entries in their order in the page.
    pub entries: ArrayVec<PageEntry, MAX_ENTRIES>,
    /// The child after the last entry, 0 in a leaf.
    pub last: u32,
}

/// Why 512 bytes are no page. The first of several faults in this order is told.
#[derive(Clone, Copy, Debug, PartialEq, Eq, Error)]
pub enum PageFault {
    /// The count of entries is above the most.
    #[error("Count")]
    Count,
    /// Some children are 0, and some are not.
    #[error("Child")]
    Child,
    /// A leaf has an entry of record 0.
    #[error("Record")]
    Record,
}
