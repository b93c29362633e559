//! Lists made anew from a table's rows.

ghost use Rattle.std.specs.Prelude.{◌≡◌, ◌+◌, ◌≤◌, ◌<◌, ◌∷◌, [], ◌++◌, if◌then◌else◌, IfOk, OnOk};
ghost use Rattle.std.specs.Prelude.{length};
ghost use Rattle.dbf_file.specs.Rows.{row_at};
ghost use Rattle.dbf_file.specs.Tables.{row_widths};
ghost use Rattle.key_lists.specs.KeyForm.{IsKeyText, IsPairOf};
ghost use Rattle.key_lists.specs.Order.{Each};
ghost use Rattle.shape.specs.Keys.{IsKey, key_of, key_length};
ghost use Rattle.row_keys.specs.Lists.{row_pairs, is_kept, kept_rows, list_by, IsExact};

use dbf_file::Table;
use key_lists::{Entry, KeyList};
use shape::KeyParts;
use std::alloc::{AllocError, Global};

/// Which rows of a table are kept.
#[derive(Clone, Copy, Debug, PartialEq, Eq)]
pub enum Kept {
    /// All of them.
    Every,
    /// Those that aren't marked.
    Unmarked,
    /// None.
    Nothing,
}

/// Whether row `r`, counted from 0, is kept.
pub fn keeps(kept: Kept, table: &Table, r: usize) -> bool
    requires { r < length table.now.rows }
    ensures { result ≡ is_kept kept (row_at table.now.rows r) }
{
    match kept {
        Kept::Every => true,
        Kept::Unmarked => !table.mark(r),
        Kept::Nothing => false,
    }
}

/// The key of row `r`, counted from 0, with a number.
fn entry_of(table: &Table, key: &KeyParts, r: usize, number: u32) -> Entry
    requires row { r < length table.now.rows }
    requires number { 1 ≤ number }
    requires key { IsKey table.now.structure key.now }
    ensures pair { result ≡ (key_of key.now (row_at table.now.rows r).texts, number) }
    ensures key { IsPairOf (key_length key.now (row_widths table.now.structure)) result }
{
    let text = key.row_key(table, r);
    Entry::new(text.as_slice(), number)
}

/// Puts the key of row `r`, counted from 0, with the next number behind the others, if the row is kept.
fn put_row(
    entries: &mut Vec<Entry>,
    table: &Table,
    key: &KeyParts,
    kept: Kept,
    r: usize,
) -> Result<(), AllocError>
    requires row { r < length table.now.rows }
    requires few { length entries.old.items < 1000000 }
    requires key { IsKey table.now.structure key.now }
    ensures pairs { OnOk result (entries.new.items ≡ entries.old.items
        ++ (if is_kept kept (row_at table.now.rows r)
        then (key_of key.now (row_at table.now.rows r).texts, length entries.old.items + 1) ∷ [] else [])) }
    ensures keys { OnOk result (Each (IsPairOf (key_length key.now (row_widths table.now.structure))) entries.old.items
        → Each (IsPairOf (key_length key.now (row_widths table.now.structure))) entries.new.items) }
    ensures few { OnOk result (length entries.new.items ≤ length entries.old.items + 1) }
{
    if !keeps(kept, table, r) {
        return Ok(());
    }
    let number = entries.len() as u32 + 1;
    entries.push(entry_of(table, key, r, number))?;
    Ok(())
}

/// The pair of each row that is kept, numbered from 1 in the order of the records. Where none is kept, no row is
/// passed.
fn entries_of(
    alloc: Global,
    table: &Table,
    key: &KeyParts,
    kept: Kept,
) -> Result<Vec<Entry>, AllocError>
    requires few { length table.now.rows ≤ 1000000 }
    requires key { IsKey table.now.structure key.now }
    ensures pairs { IfOk result (λ entries. entries.items ≡ row_pairs key.now 1 (kept_rows kept table.now.rows)) }
    ensures keys { IfOk result (λ entries. Each
        (IsPairOf (key_length key.now (row_widths table.now.structure))) entries.items) }
    ensures few { IfOk result (λ entries. length entries.items ≤ length table.now.rows) }
{
    match kept {
        Kept::Nothing => Ok(Vec::new(alloc)),
        Kept::Every => pass(alloc, table, key, kept),
        Kept::Unmarked => pass(alloc, table, key, kept),
    }
}

/// The same by a pass over the rows.
fn pass(alloc: Global, table: &Table, key: &KeyParts, kept: Kept) -> Result<Vec<Entry>, AllocError>
    requires few { length table.now.rows ≤ 1000000 }
    requires key { IsKey table.now.structure key.now }
    ensures pairs { IfOk result (λ entries. entries.items ≡ row_pairs key.now 1 (kept_rows kept table.now.rows)) }
    ensures keys { IfOk result (λ entries. Each
        (IsPairOf (key_length key.now (row_widths table.now.structure))) entries.items) }
    ensures few { IfOk result (λ entries. length entries.items ≤ length table.now.rows) }
{
    let mut entries = Vec::new(alloc);
    for r in 0..table.rows() {
        put_row(&mut entries, table, key, kept, r)?;
    }
    Ok(entries)
}

/// The list, made anew, of the rows that are kept, numbered in their order. `key_text` (at most 100 bytes, none of them
/// zero) says how the keys are made.
pub fn build_of<K: KeyList>(
    alloc: Global,
    table: &Table,
    key: &KeyParts,
    key_text: &[u8],
    kept: Kept,
) -> Result<K, AllocError>
    requires few { length table.now.rows ≤ 1000000 }
    requires key { IsKey table.now.structure key.now }
    requires key_text { IsKeyText key_text.now }
    ensures exact { IfOk result (λ list. IsExact table.now.structure (kept_rows kept table.now.rows) key.now
        (list_by K.pairs K.spare K.form list)) }
    ensures key_text { IfOk result (λ list. (K.form list).key_text ≡ key_text.now) }
{
    let length = key.length(table);
    let entries = entries_of(alloc, table, key, kept)?;
    let list = K::rebuild(alloc, length, key_text, entries)?;
    Ok(list)
}
