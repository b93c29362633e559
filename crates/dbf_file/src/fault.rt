//! Why bytes are no table's file.

use thiserror::Error;

/// Why bytes are no table's file. Of several faults the first in this order is told. `FieldShape` and `NoEnd` share a
/// place in it: of these two the one that comes first in the file is told.
#[derive(Clone, Copy, Debug, PartialEq, Eq, Error)]
pub enum DbfFault {
    /// There are fewer than 65 bytes.
    #[error("Short")]
    Short,
    /// The first byte isn't 3.
    #[error("Version")]
    Version,
    /// The header's length is below 65 or above the file's.
    #[error("HeaderLength")]
    HeaderLength,
    /// A descriptor is bad, a name comes twice, there is no field, or there are more than 128.
    #[error("FieldShape")]
    FieldShape,
    /// The descriptors don't end before the header does.
    #[error("NoEnd")]
    NoEnd,
    /// The record's length isn't that of a mark and the fields, or is above 4000.
    #[error("RecordLength")]
    RecordLength,
    /// There are more records than the limit.
    #[error("TooMany")]
    TooMany,
    /// The file ends before its last record.
    #[error("Truncated")]
    Truncated,
    /// A record's first byte is neither a blank nor an asterisk.
    #[error("RecordMark")]
    RecordMark,
    /// Memory was refused.
    #[error("Memory")]
    Memory,
}
