//! Whether tables and lists that are handed in are those that a shape declares.

ghost use Rattle.std.specs.Prelude.{◌≡◌, ◌<◌, ◌↔◌, IsTrue, length};
ghost use Rattle.work_area.specs.Making.{IsAlike, HaveAlikeFields, IsDeclaredTable, IsFormed, AreOfShape, AreLists};
ghost use Rattle.work_area.specs.Making.{key_form};

use dbf_file::{Field, Table};
use key_lists::KeyList;
use shape::{IndexShape, Shape, TableShape};

/// Whether two fields hold the same.
fn is_alike(field: &Field, other: &Field) -> bool
    ensures { IsTrue result ↔ IsAlike field.now other.now }
{
    field.letter == other.letter && field.width == other.width && field.decimals == other.decimals
}

/// Whether fields hold the same, each as the other in its place; their names may differ.
pub fn are_alike(fields: &[Field], others: &[Field]) -> bool
    ensures { IsTrue result ↔ HaveAlikeFields fields.now others.now }
{
    if fields.len() != others.len() {
        return false;
    }
    for i in 0..fields.len() {
        if !is_alike(&fields[i], &others[i]) {
            return false;
        }
    }
    true
}

/// Whether a table has fields that hold what is declared, and no more rows than a limit.
fn is_declared(table: &Table, declared: &TableShape, limit: u32) -> bool
    ensures { IsTrue result ↔ IsDeclaredTable limit declared.now table.now }
{
    if table.rows() > limit as usize {
        return false;
    }
    are_alike(table.structure().fields(), declared.fields.as_slice())
}

/// Whether tables are those of a shape, in its order, none with more rows than a limit.
pub fn are_of_shape(shape: &Shape, tables: &Vec<Table>, limit: u32) -> bool
    ensures { IsTrue result ↔ AreOfShape shape.now limit tables.now.items }
{
    if tables.len() != shape.tables.len() {
        return false;
    }
    for t in 0..tables.len() {
        if !is_declared(&tables[t], shape.tables.get(t), limit) {
            return false;
        }
    }
    true
}

fn is_same(text: &[u8], other: &[u8]) -> bool
    ensures { IsTrue result ↔ (text.now ≡ other.now) }
{
    text == other
}

/// Whether a list is of the declared key: its keys have that length, and it names that key.
pub fn is_list_of<K: KeyList>(keys: &K, table: &TableShape, index: &IndexShape) -> bool
    ensures { IsTrue result ↔ (K.form keys.now ≡ key_form table.now index.now) }
{
    let fields = table.fields.as_slice();
    if keys.key_length() != index.key.bytes(fields) {
        return false;
    }
    is_same(keys.key_text(), index.key.text(fields).as_slice())
}

/// Whether a list for index `n` of a shape, counted from 0, is of its key. None will do, and so will any for an index
/// of no table.
fn is_formed<K: KeyList>(shape: &Shape, n: usize, list: &Option<K>) -> bool
    requires { n < length shape.now.indexes }
    ensures { IsTrue result ↔ IsFormed K.form shape.now n list.now }
{
    let Some(keys) = list else {
        return true;
    };
    let index = shape.indexes.get(n);
    let t = usize::from(index.table);
    if t >= shape.tables.len() {
        return true;
    }
    is_list_of(keys, shape.tables.get(t), index)
}

/// Whether lists are those of a shape's indexes, in its order, each of the declared key or none.
pub fn are_lists<K: KeyList>(shape: &Shape, keys: &Vec<Option<K>>) -> bool
    ensures { IsTrue result ↔ AreLists K.form shape.now keys.now.items }
{
    if keys.len() != shape.indexes.len() {
        return false;
    }
    for n in 0..keys.len() {
        if !is_formed(shape, n, &keys[n]) {
            return false;
        }
    }
    true
}
