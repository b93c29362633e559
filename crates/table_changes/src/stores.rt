//! Stores before and after.

ghost use Rattle.std.specs.Prelude.{◌≡◌, ◌<◌, ◌≤◌, ◌&&◌, not, true, length, map, slice_index_or, [], IfOk};
ghost use Rattle.row_changes.specs.Changes.{AreCounted};
ghost use Rattle.shape.specs.Whole.{is_shape};
ghost use Rattle.table_changes.specs.Rows.{tables_of, fresh_of, is_fresh_in};
ghost use Rattle.table_changes.specs.Stores.{AreKept, AreChanges, EachCounted, EachMade, bytes_of_rows};
ghost use Rattle.work_area.specs.Areas.{StoreState};

use crate::rows::texts_of;
use key_lists::KeyList;
use row_changes::{RowCounts, compare};
use shape::Shape;
use shape::laws::legal_shapes_have_keys;
use std::alloc::{AllocError, Global};
use work_area::Store;

/// The rows of a store's tables as their bytes, and which of its indexes are fresh, kept to be compared with later.
#[derive(Drop)]
pub struct KeptStore {
    pub rows: Vec<Vec<Vec<u8>>>,
    pub fresh: Vec<bool>,
}

/// What became of each declared table's rows, and whether each declared index was stale and is made anew.
#[derive(Drop)]
pub struct Changes {
    pub tables: Vec<RowCounts>,
    pub made: Vec<bool>,
}

/// The rows of table `t`.
fn texts_at<K: KeyList>(
    alloc: Global,
    store: &Store<K>,
    t: usize,
) -> Result<Vec<Vec<u8>>, AllocError>
    requires table { t < length store.now.tables }
    requires few { t < 65536 }
    ensures { IfOk result (λ rows. bytes_of_rows rows ≡ slice_index_or (tables_of store.now) t []) }
{
    texts_of(alloc, store.table(t as u16))
}

/// Whether index `n` isn't stale.
fn is_fresh<K: KeyList>(store: &Store<K>, n: usize) -> bool
    requires { n < 256 }
    ensures { result ≡ is_fresh_in store.now n }
{
    store.keys(n as u8).is_some()
}

/// The rows of each table.
fn rows_of<K: KeyList>(
    alloc: Global,
    count: usize,
    store: &Store<K>,
) -> Result<Vec<Vec<Vec<u8>>>, AllocError>
    requires count { length store.now.tables ≡ count }
    requires few { count ≤ 32 }
    ensures rows { IfOk result (λ rows. map bytes_of_rows rows.items ≡ tables_of store.now) }
    ensures count { IfOk result (λ rows. length rows.items ≡ count) }
{
    let mut rows = Vec::with_capacity(alloc, count)?;
    for t in 0..count {
        rows.push(texts_at(alloc, store, t)?)?;
    }
    Ok(rows)
}

/// Which of so many indexes are fresh.
fn fresh_of<K: KeyList>(
    alloc: Global,
    count: usize,
    store: &Store<K>,
) -> Result<Vec<bool>, AllocError>
    requires { count ≤ 64 }
    ensures { IfOk result (λ fresh. fresh.items ≡ fresh_of store.now count) }
{
    let mut fresh = Vec::with_capacity(alloc, count)?;
    for n in 0..count {
        fresh.push(is_fresh(store, n))?;
    }
    Ok(fresh)
}

/// What is kept of a store of the declared tables and indexes.
pub fn keep<K: KeyList>(
    alloc: Global,
    shape: &Shape,
    store: &Store<K>,
) -> Result<KeptStore, AllocError>
    requires legal { is_shape shape.now ≡ true }
    requires count { length store.now.tables ≡ length shape.now.tables }
    ensures { IfOk result (AreKept shape.now store.now) }
{
    legal_shapes_have_keys();
    Ok(KeptStore {
        rows: rows_of(alloc, shape.tables.len(), store)?,
        fresh: fresh_of(alloc, shape.indexes.len(), store)?,
    })
}

/// What became of table `t`.
fn count_of<K: KeyList>(
    alloc: Global,
    before: Vec<Vec<u8>>,
    store: &Store<K>,
    t: usize,
) -> Result<RowCounts, AllocError>
    requires table { t < length store.now.tables }
    requires few { t < 65536 }
    ensures { IfOk result (AreCounted (bytes_of_rows before) (slice_index_or (tables_of store.now) t [])) }
{
    compare(before, texts_at(alloc, store, t)?)
}

/// What became of each table.
fn counts_of<K: KeyList>(
    alloc: Global,
    rows: Vec<Vec<Vec<u8>>>,
    store: &Store<K>,
) -> Result<Vec<RowCounts>, AllocError>
    requires kept { length rows.items ≡ length store.now.tables }
    requires few { length rows.items ≤ 32 }
    ensures count { IfOk result (λ counts. length counts.items ≡ length rows.items) }
    ensures each { IfOk result (λ counts.
        EachCounted (map bytes_of_rows rows.items) (tables_of store.now) counts.items) }
{
    let mut counts = Vec::with_capacity(alloc, rows.len())?;
    for before in rows {
        counts.push(count_of(alloc, before, store, counts.len())?)?;
    }
    Ok(counts)
}

/// Whether index `n` is fresh and was stale.
fn is_made<K: KeyList>(was_fresh: bool, store: &Store<K>, n: usize) -> bool
    requires { n < 256 }
    ensures { result ≡ (not was_fresh && is_fresh_in store.now n) }
{
    !was_fresh && is_fresh(store, n)
}

/// Which indexes were stale and are fresh.
fn made_of<K: KeyList>(
    alloc: Global,
    fresh: &[bool],
    store: &Store<K>,
) -> Result<Vec<bool>, AllocError>
    requires { length fresh.now ≤ 64 }
    ensures count { IfOk result (λ made. length made.items ≡ length fresh.now) }
    ensures each { IfOk result (λ made. EachMade fresh.now store.now made.items) }
{
    let mut made = Vec::with_capacity(alloc, fresh.len())?;
    for n in 0..fresh.len() {
        made.push(is_made(fresh[n], store, n))?;
    }
    Ok(made)
}

/// What became of a store's tables and indexes since it was kept.
pub fn changes_since<K: KeyList>(
    alloc: Global,
    shape: &Shape,
    kept: KeptStore,
    store: &Store<K>,
) -> Result<Changes, AllocError>
    requires legal { is_shape shape.now ≡ true }
    requires count { length store.now.tables ≡ length shape.now.tables }
    requires rows { length kept.rows.items ≡ length shape.now.tables }
    requires fresh { length kept.fresh.items ≡ length shape.now.indexes }
    ensures { (before : StoreState) → AreKept shape.now before kept
        → IfOk result (AreChanges shape.now before store.now) }
{
    legal_shapes_have_keys();
    let KeptStore { rows, fresh } = kept;
    let tables = counts_of(alloc, rows, store)?;
    let made = made_of(alloc, fresh.as_slice(), store)?;
    Ok(Changes { tables, made })
}
