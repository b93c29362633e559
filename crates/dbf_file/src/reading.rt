//! The layout of a table's file, and the first fault of bytes that are no table's file.

ghost use Rattle.std.specs.Prelude.{◌≡◌, ◌*◌, ◌<◌, ◌≤◌, length, MatchResult, IfOk, Some};
ghost use Rattle.std.specs.Prelude.{None};
ghost use Rattle.dbf_file.specs.Rows.{is_mark as is_mark_of, are_marked as are_marked_of};
ghost use Rattle.dbf_file.specs.Faults.{first_fault};
ghost use Rattle.dbf_file.specs.Layouts.{IsLayout};

use crate::descriptors::fields_of;
use crate::fault::DbfFault;
use crate::field::{Field, MAX_FIELDS, MAX_RECORD, size_of};
use crate::numbers::{four_at, two_at};
use arrayvec::ArrayVec;

/// The byte of a record that isn't marked.
pub(crate) const LIVE: u8 = b' ';

/// The byte of a marked record.
pub(crate) const MARKED: u8 = b'*';

/// The byte with which each table's file begins.
pub(crate) const VERSION: u8 = 3;

/// The bytes of the shortest file: a header of one field.
const SHORTEST: usize = 65;

/// The place of the count of records, four bytes.
const COUNT_PLACE: usize = 4;

/// The place of the header's length, two bytes.
const HEADER_PLACE: usize = 8;

/// The place of a record's length, two bytes.
const SIZE_PLACE: usize = 10;

/// The place of the first descriptor.
const FIELDS_PLACE: usize = 32;

/// What the header of a table's file tells.
#[derive(Drop)]
pub(crate) struct Layout {
    /// The fields.
    pub(crate) fields: ArrayVec<Field, MAX_FIELDS>,
    /// The bytes of the header.
    pub(crate) header: usize,
    /// The bytes of a record.
    pub(crate) size: usize,
    /// The number of records.
    pub(crate) rows: usize,
}

/// Whether a record may begin with this byte.
fn is_mark(byte: u8) -> bool
    ensures { result ≡ is_mark_of byte }
{
    byte == LIVE || byte == MARKED
}

/// Whether each of so many records of this size begins with a mark.
fn are_marked(size: usize, count: usize, bytes: &[u8]) -> bool
    requires some { 0 < size }
    requires room { count * size ≤ length bytes.now }
    ensures { result ≡ are_marked_of size count bytes.now }
{
    let mut rest = bytes;
    for _ in 0..count {
        let (record, others) = rest.split_at(size);
        if !is_mark(record[0]) {
            return false;
        }
        rest = others;
    }
    true
}

/// The layout of a table's file, with at most `limit` records, or the first fault. It takes no memory.
#[tactic(auto, unfolding(crate::specs::Faults::told_fields, crate::specs::Faults::first_fault))]
pub(crate) fn layout_of(bytes: &[u8], limit: usize) -> Result<Layout, DbfFault>
    ensures layout { IfOk result (IsLayout bytes.now) }
    ensures limited { IfOk result (λ layout. layout.rows ≤ limit) }
    ensures fault { MatchResult result (λ _. first_fault limit bytes.now ≡ None)
        (λ fault. first_fault limit bytes.now ≡ Some fault) }
{
    if bytes.len() < SHORTEST {
        return Err(DbfFault::Short);
    }
    if bytes[0] != VERSION {
        return Err(DbfFault::Version);
    }
    let header = two_at(bytes, HEADER_PLACE);
    if header < SHORTEST || bytes.len() < header {
        return Err(DbfFault::HeaderLength);
    }
    let fields = fields_of(&bytes[FIELDS_PLACE..header])?;
    let size = size_of(fields.as_slice());
    if two_at(bytes, SIZE_PLACE) != size || MAX_RECORD < size {
        return Err(DbfFault::RecordLength);
    }
    let rows = four_at(bytes, COUNT_PLACE);
    if limit < rows {
        return Err(DbfFault::TooMany);
    }
    if bytes.len() < header + rows * size {
        return Err(DbfFault::Truncated);
    }
    if !are_marked(size, rows, &bytes[header..]) {
        return Err(DbfFault::RecordMark);
    }
    Ok(Layout {
        fields,
        header,
        size,
        rows,
    })
}
