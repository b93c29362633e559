// Shapes, tables and stores of one field K for tests.

ghost use Rattle.std.specs.Prelude.{◌≡◌, ◌<◌, IsTrue, length};
ghost use Rattle.dbf_file.specs.Tables.{letter_at};
ghost use Rattle.dbf_file.specs.Values.{kind_for};
ghost use Rattle.xvalue.specs.Kinds.{kind_of};

use crate::files::lists::put;
use arrayvec::ArrayVec;
use dbf_file::{Field, Letter, Table, are_fields};
use key_lists::KeyList;
use shape::{IndexShape, Items, KeyPart, KeyParts, Name, Shape, TableShape};
use std::alloc::{AllocError, Global};
use work_area::handed::{are_lists, are_of_shape};
use work_area::{MOST_RECORDS, Store};
use xvalue::{Lent, Text, Value};

const NAMES: [&[u8]; 12] = [
    b"AA", b"AB", b"AC", b"AD", b"AE", b"AF", b"AG", b"AH", b"AI", b"AJ", b"AK", b"AL",
];

/// A name of two letters.
fn name_of(number: usize) -> Name {
    let mut name = ArrayVec::new();
    match name.try_extend_from_slice(NAMES[number % 12]) {
        Ok(()) => name,
        Err(_) => ArrayVec::new(),
    }
}

fn field_of(width: u8) -> Field {
    let mut name = ArrayVec::new();
    name.push(b'K');
    Field {
        name,
        letter: Letter::C,
        width,
        decimals: 0,
    }
}

fn table_shape(alloc: Global, number: usize, width: u8) -> Result<TableShape, AllocError> {
    let mut fields = Vec::new(alloc);
    fields.push(field_of(width))?;
    Ok(TableShape {
        name: name_of(number),
        fields: Items::of(fields),
    })
}

/// So many tables of one field K C of a width, and an index of the first table on K for each letter, in capitals at
/// `U`.
pub(crate) fn shape_of(
    alloc: Global,
    tables: usize,
    width: u8,
    uppers: &str,
) -> Result<Shape, AllocError> {
    let mut declared = Vec::new(alloc);
    for t in 0..tables {
        declared.push(table_shape(alloc, t, width)?)?;
    }
    let mut indexes = Vec::new(alloc);
    for (n, letter) in uppers.bytes().enumerate() {
        indexes.push(IndexShape {
            name: name_of(n),
            table: 0,
            key: KeyParts::new(&[KeyPart {
                field: 0,
                upper: letter == b'U',
            }]),
        })?;
    }
    Ok(Shape {
        tables: Items::of(declared),
        indexes: Items::of(indexes),
    })
}

// Whether the last row's first field takes the value.
fn takes_last(table: &Table, value: &Value) -> bool
    ensures row { IsTrue result → 0 < length table.now.rows }
    ensures field { IsTrue result → 0 < length table.now.structure.fields }
    ensures kind { IsTrue result → kind_of value.now ≡ kind_for (letter_at table.now.structure 0) }
{
    if table.rows() == 0 {
        return false;
    }
    match table.structure().fields() {
        [field, ..] => field.letter.kind() == value.kind(),
        [] => false,
    }
}

fn put_row(table: &mut Table, text: &[u8]) -> Result<(), AllocError> {
    if table.rows() > 1000 {
        return Ok(());
    }
    table.reserve_row()?;
    table.push_blank();
    let mut held = Text::new();
    if held.try_extend_from_slice(text).is_err() {
        return Ok(());
    }
    let value = Value::Text(held);
    if takes_last(table, &value) {
        let last = table.rows() - 1;
        table.put_at(last, 0, &Lent::of(&value));
    }
    Ok(())
}

/// A table of one field of a width with these rows, each with `,` behind it; none where there can be none such.
pub(crate) fn table_of(alloc: Global, width: u8, texts: &str) -> Result<Option<Table>, AllocError> {
    let fields = [field_of(width)];
    if !are_fields(&fields) {
        return Ok(None);
    }
    let mut table = Table::empty(alloc, &fields)?;
    for text in texts.split_terminator(',') {
        put_row(&mut table, text.as_bytes())?;
    }
    Ok(Some(table))
}

/// A list of keys of a length under the text K with these pairs, each with `,` behind it, none twice.
pub(crate) fn list_of<K: KeyList>(
    alloc: Global,
    key_length: usize,
    pairs: &str,
) -> Result<Option<K>, AllocError> {
    if key_length < 1 || key_length > 100 {
        return Ok(None);
    }
    let mut list = K::rebuild(alloc, key_length, b"K", Vec::new(alloc))?;
    for pair in pairs.split_terminator(',') {
        let (key, number) = pair.split_once(' ').unwrap_or((pair, ""));
        put(&mut list, key.as_bytes(), number.parse().unwrap_or(0))?;
    }
    Ok(Some(list))
}

/// A store, where its conditions hold.
pub(crate) fn store_of<K: KeyList>(
    alloc: Global,
    shape: &Shape,
    tables: Vec<Table>,
    keys: Vec<Option<K>>,
    limit: u32,
) -> Result<Option<Store<K>>, AllocError> {
    if !shape.is_legal() || !are_lists(shape, &keys) {
        return Ok(None);
    }
    if !are_of_shape(shape, &tables, limit.min(MOST_RECORDS)) {
        return Ok(None);
    }
    Ok(Some(Store::new(alloc, shape, tables, keys, limit)?))
}

/// A store of tables without rows but the first, and no lists.
pub(crate) fn plain_store<K: KeyList>(
    alloc: Global,
    shape: &Shape,
    width: u8,
    texts: &str,
    limit: u32,
) -> Result<Option<Store<K>>, AllocError> {
    let mut tables = Vec::new(alloc);
    for t in 0..shape.tables.len() {
        match table_of(alloc, width, if t == 0 { texts } else { "" })? {
            Some(table) => tables.push(table)?,
            None => return Ok(None),
        }
    }
    let mut keys = Vec::new(alloc);
    for _ in 0..shape.indexes.len() {
        keys.push(None)?;
    }
    store_of(alloc, shape, tables, keys, limit)
}
