// Indexes of a table, made anew of its rows.

ghost use Rattle.std.specs.Prelude.{◌≤◌, IsTrue, length};
ghost use Rattle.shape.specs.Keys.{IsKey};

use crate::areas::made::table_of;
use dbf_file::Table;
use key_lists::{KeyList, SortedKeys};
use ndx_tree::NdxTree;
use row_keys::{Kept, KeyPart, KeyParts, build_of, keeps};
use shape::laws::fitting_keys_are_keys;
use std::alloc::{AllocError, Global};
use std::test::Fail;

fn key() -> KeyParts {
    KeyParts::new(&[KeyPart {
        field: 0,
        upper: false,
    }])
}

// Whether rows of the table have the key, and there are few.
fn has_key(table: &Table, key: &KeyParts) -> bool
    ensures key { IsTrue result → IsKey table.now.structure key.now }
    ensures few { IsTrue result → length table.now.rows ≤ 1000000 }
{
    fitting_keys_are_keys();
    if table.rows() > 1000 {
        return false;
    }
    key.fits(table.structure().fields())
}

// How many pairs an index made anew of the rows that are kept has, and how long its keys are.
fn listed<K: KeyList>(
    alloc: Global,
    table: &Table,
    kept: Kept,
) -> Result<(usize, usize), AllocError> {
    let key = key();
    if !has_key(table, &key) {
        return Ok((0, 0));
    }
    let list = build_of::<K>(alloc, table, &key, b"K", kept)?;
    Ok((list.len(), list.key_length()))
}

// The rows B, A, C, A, of which the first is marked.
fn lists_rows<K: KeyList>(alloc: Global) -> Result<bool, AllocError> {
    let Some(mut table) = table_of(alloc, 2, "B ,A ,C ,A ,")? else {
        return Ok(false);
    };
    if table.rows() > 0 {
        table.set_mark(0, true);
    }
    let every = listed::<K>(alloc, &table, Kept::Every)?;
    let unmarked = listed::<K>(alloc, &table, Kept::Unmarked)?;
    let nothing = listed::<K>(alloc, &table, Kept::Nothing)?;
    Ok(every == (4, 2) && unmarked == (3, 2) && nothing == (0, 2))
}

fn is_kept(table: &Table, kept: Kept) -> bool {
    table.rows() > 0 && keeps(kept, table, 0)
}

#[test]
fn indexes_of_rows(rt: HostRuntime) -> Result<(), Fail> {
    assert!(rt; lists_rows::<SortedKeys>(rt.alloc())?);
    assert!(rt; lists_rows::<NdxTree>(rt.alloc())?);
    Ok(())
}

#[test]
fn kept_rows(rt: HostRuntime) -> Result<(), Fail> {
    let table = table_of(rt.alloc(), 2, "B ,")?;
    assert!(rt; table.is_some());
    if let Some(table) = table {
        assert!(rt; is_kept(&table, Kept::Every));
        assert!(rt; is_kept(&table, Kept::Unmarked));
        assert!(rt; !is_kept(&table, Kept::Nothing));
    }
    Ok(())
}
