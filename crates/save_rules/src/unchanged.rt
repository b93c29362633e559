//! Which of the files that are handed in to be replaced stay as they are.

ghost use Rattle.std.specs.Prelude.{◌≡◌, ◌≤◌, ◌↔◌, true, List, IsTrue, IfOk, MatchOption, length};
ghost use Rattle.dbf_file.specs.Rows.{Row};
ghost use Rattle.dbf_file.specs.Tables.{StructureState};
ghost use Rattle.key_lists.specs.KeyForm.{KeyForm};
ghost use Rattle.key_lists.specs.Pairs.{Pair};
ghost use Rattle.ndx_tree.specs.IndexFile.{IsIndexFile};
ghost use Rattle.save_rules.specs.Unchanged as spec;

use crate::recorded::{Recorded, recorded_as};
use dbf_file::{DbfFault, Stamp, Table, read, write};
use file_access::FILE_LIMIT;
use key_lists::laws::meets_each;
use key_lists::{Entry, KeyList};
use ndx_tree::laws::holds_one_list;
use ndx_tree::{NdxTree, TreeFault};
use std::alloc::{AllocError, Global};

/// A file that is handed in to be replaced.
#[derive(Clone, Copy)]
pub struct HandedIn<'a> {
    pub name: &'a [u8],
    /// What it held when it was read; none if it was absent, or wasn't read.
    pub read: Option<&'a [u8]>,
    /// What it is to hold.
    pub new: &'a [u8],
}

/// The most rows that a table's file can have.
const MOST_ROWS: usize = 0xffff_ffff;

/// The stamp of tables that are only compared.
const NO_STAMP: Stamp = Stamp {
    year: 0,
    month: 0,
    day: 0,
};

/// Whether a table wasn't read because memory was refused.
fn table_lacks_memory(fault: DbfFault) -> bool
    ensures { IsTrue result ↔ (fault ≡ DbfFault.Memory) }
{
    matches!(fault, DbfFault::Memory)
}

/// The table that the bytes of a file hold; none if they aren't a table's file.
fn table_in(alloc: Global, bytes: &[u8]) -> Result<Option<Table>, AllocError>
    ensures { IfOk result (λ found. MatchOption found
        ((structure : StructureState) (rows : List Row) → ¬ spec.TextOfTable bytes.now structure rows)
        (λ table. spec.TextOfTable bytes.now table.structure table.rows)) }
{
    match read(alloc, bytes, MOST_ROWS) {
        Ok(table) => Ok(Some(table)),
        Err(fault) => {
            if table_lacks_memory(fault) {
                return Err(AllocError);
            }
            Ok(None)
        }
    }
}

/// What a table's file would be with a stamp of zeros and nothing after its last row; none for other bytes. So two
/// files hold one table just if these bytes are equal.
fn unstamped(alloc: Global, bytes: &[u8]) -> Result<Option<Vec<u8>>, AllocError>
    ensures { IfOk result (λ found. MatchOption found
        ((structure : StructureState) (rows : List Row) → ¬ spec.TextOfTable bytes.now structure rows)
        (λ text. spec.IsUnstamped bytes.now text.items)) }
{
    match table_in(alloc, bytes)? {
        Some(table) => Ok(Some(write(alloc, &table, NO_STAMP)?)),
        None => Ok(None),
    }
}

/// Whether two files hold the same table.
fn hold_one_table(alloc: Global, read: &[u8], new: &[u8]) -> Result<bool, AllocError>
    ensures { IfOk result (λ same. IsTrue same ↔ spec.HoldOneTable read.now new.now) }
{
    let Some(before) = unstamped(alloc, read)? else {
        return Ok(false);
    };
    let Some(after) = unstamped(alloc, new)? else {
        return Ok(false);
    };
    Ok(before.as_slice() == after.as_slice())
}

/// Whether an index wasn't read because memory was refused.
fn index_lacks_memory(fault: TreeFault) -> bool
    ensures { IsTrue result ↔ (fault ≡ TreeFault.Memory) }
{
    matches!(fault, TreeFault::Memory)
}

/// The index that the bytes of a file hold; none if they aren't an index file of at most 64 MiB.
fn index_in(alloc: Global, bytes: &[u8]) -> Result<Option<NdxTree>, AllocError>
    ensures { IfOk result (λ found. MatchOption found
        ((form : KeyForm) (pairs : List Pair) → ¬ spec.IsShortIndex bytes.now form pairs)
        (λ tree. spec.IsShortIndex bytes.now tree.form tree.pairs)) }
{
    if bytes.len() > FILE_LIMIT {
        return Ok(None);
    }
    match NdxTree::read(alloc, bytes) {
        Ok(tree) => Ok(Some(tree)),
        Err(fault) => {
            if index_lacks_memory(fault) {
                return Err(AllocError);
            }
            Ok(None)
        }
    }
}

/// Whether two pairs have the same key and the same record.
fn is_same_pair(one: &Entry, other: &Entry) -> bool
    ensures { IsTrue result ↔ (one.now ≡ other.now) }
{
    one.key() == other.key() && one.number() == other.number()
}

/// Whether two indexes list the same pairs. The walk goes along both at once.
fn list_the_same(one: &mut NdxTree, other: &mut NdxTree) -> bool
    ensures { IsTrue result ↔ (one.old.pairs ≡ other.old.pairs) }
{
    meets_each();
    if one.len() != other.len() {
        return false;
    }
    let mut next = one.first();
    let mut other_next = other.first();
    while let Some(pair) = next {
        let Some(other_pair) = other_next else {
            return false;
        };
        if !is_same_pair(&pair, &other_pair) {
            return false;
        }
        next = one.after(pair.key(), pair.number());
        other_next = other.after(pair.key(), pair.number());
    }
    other_next.is_none()
}

/// Whether two indexes have keys of one length, made by the same expression.
fn have_one_key(one: &NdxTree, other: &NdxTree) -> bool
    ensures { IsTrue result ↔ (one.now.form ≡ other.now.form) }
{
    one.key_length() == other.key_length() && one.key_text() == other.key_text()
}

/// Whether two files hold the same index.
fn hold_one_index(alloc: Global, read: &[u8], new: &[u8]) -> Result<bool, AllocError>
    ensures { IfOk result (λ same. IsTrue same ↔ spec.HoldOneIndex read.now new.now) }
{
    holds_one_list();
    let Some(mut before) = index_in(alloc, read)? else {
        return Ok(false);
    };
    let Some(mut after) = index_in(alloc, new)? else {
        return Ok(false);
    };
    if !have_one_key(&before, &after) {
        return Ok(false);
    }
    Ok(list_the_same(&mut before, &mut after))
}

/// Whether the new bytes of the file of this name hold the table or the index that it held.
fn hold_the_same(alloc: Global, name: &[u8], read: &[u8], new: &[u8]) -> Result<bool, AllocError>
    ensures { IfOk result (λ same. IsTrue same ↔ spec.HoldTheSame name.now read.now new.now) }
{
    match recorded_as(name) {
        Recorded::Table => hold_one_table(alloc, read, new),
        Recorded::Index => hold_one_index(alloc, read, new),
        Recorded::Done { .. } => Ok(false),
        Recorded::Other => Ok(false),
    }
}

/// Whether a file that is handed in isn't replaced.
fn stays(alloc: Global, file: &HandedIn<'_>, keep_unchanged: bool) -> Result<bool, AllocError>
    ensures { IfOk result (λ stays. IsTrue stays ↔ spec.Stays keep_unchanged file.now) }
{
    let Some(read) = file.read else {
        return Ok(false);
    };
    if read == file.new {
        return Ok(true);
    }
    if !keep_unchanged {
        return Ok(false);
    }
    hold_the_same(alloc, file.name, read, file.new)
}

/// The numbers, from 0 and rising, of the files that are replaced. A file whose new bytes are those that were read
/// isn't replaced. With `keep_unchanged` neither is a table's file that holds the same structure and rows, whatever its
/// stamp and the bytes after its last row, nor an index's file that holds the same key and pairs, whatever its pages. A
/// file that wasn't read is replaced.
///
/// # Errors
/// Memory was refused. One table or index at a time is read from both its old and its new bytes.
pub fn files_replaced(
    alloc: Global,
    files: &[HandedIn<'_>],
    keep_unchanged: bool,
) -> Result<Vec<usize>, AllocError>
    ensures replaced { IfOk result (λ numbers. spec.AreReplaced keep_unchanged files.now numbers.items) }
    ensures changed { keep_unchanged ≡ true → IfOk result (λ numbers. spec.AreChanged files.now numbers.items) }
{
    holds_one_list();
    let mut numbers = Vec::new(alloc);
    for (number, file) in files.iter().enumerate() {
        if stays(alloc, file, keep_unchanged)? {
            continue;
        }
        numbers.push(number)?;
    }
    Ok(numbers)
}
