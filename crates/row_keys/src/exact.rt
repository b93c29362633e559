//! Whether a list lists a table's rows.

ghost use Rattle.std.specs.Prelude.{◌≡◌, ◌≤◌, ◌↔◌, ◌<◌, IsTrue, Contains, length};
ghost use Rattle.dbf_file.specs.Rows.{row_at};
ghost use Rattle.row_keys.specs.Lists.{index_list};
ghost use Rattle.shape.specs.Keys.{IsKey, key_of};

use crate::laws::index_lists;
use dbf_file::Table;
use key_lists::laws::orders_pairs;
use key_lists::{Entry, KeyList};
use shape::KeyParts;

/// Whether a key is the key of row `r`, counted from 0.
fn is_row_key(table: &Table, key: &KeyParts, r: usize, text: &[u8]) -> bool
    requires row { r < length table.now.rows }
    requires key { IsKey table.now.structure key.now }
    ensures { IsTrue result ↔ (text.now ≡ key_of key.now (row_at table.now.rows r).texts) }
{
    text == key.row_key(table, r).as_slice()
}

/// Whether an entry is the pair of a row.
fn is_row(table: &Table, key: &KeyParts, entry: &Entry) -> bool
    requires key { IsKey table.now.structure key.now }
    ensures { IsTrue result ↔ Contains (index_list key.now table.now.rows) entry.now }
{
    index_lists();
    let number = entry.number() as usize;
    if number == 0 || table.rows() < number {
        return false;
    }
    is_row_key(table, key, number - 1, entry.key())
}

/// Whether a list lists just the rows of a table, by their keys: it is as long as the table, and a walk along it meets
/// pairs of rows alone.
pub fn lists_rows<K: KeyList>(table: &Table, key: &KeyParts, list: &K) -> bool
    requires few { length table.now.rows ≤ 1000000 }
    requires key { IsKey table.now.structure key.now }
    ensures { IsTrue result ↔ (K.pairs list.now ≡ index_list key.now table.now.rows) }
{
    index_lists();
    orders_pairs();
    if list.len() != table.rows() {
        return false;
    }
    let test = |entry: &Entry| -> bool
        requires { IsKey table.now.structure key.now }
        ensures { IsTrue result ↔ Contains (index_list key.entry.now table.entry.now.rows) entry.now }
    { is_row(table, key, entry) };
    list.all(&test)
}
