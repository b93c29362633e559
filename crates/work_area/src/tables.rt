//! Tables with their indexes, made of tables and lists.

ghost use Rattle.std.specs.Prelude.{◌≡◌, ◌<◌, ◌≤◌, List, [], All, IfOk, IfSome, IsSomeAnd, OnOk, Some, length, map};
ghost use Rattle.std.specs.Prelude.{slice_get};
ghost use Rattle.shape.specs.Keys.{key_text};
ghost use Rattle.shape.specs.Whole.{IsLegal, HasKeyOf};
ghost use Rattle.row_keys.specs.Lists.{index_list};
ghost use Rattle.open_table.specs.Open.{in_table};
ghost use Rattle.open_table.specs.Tables.{HasDeclared};
ghost use Rattle.shape.specs.declared.indexes.IndexShape.{IndexShape as TheIndex};
ghost use Rattle.shape.specs.declared.tables.TableShape.{TableShape as TheTable};
ghost use Rattle.dbf_file.specs.Tables.{TableState};
ghost use Rattle.work_area.specs.Making.{HaveAlikeFields, AreLists, AreNewTables, AreReady, Declares, key_form};
ghost use Rattle.work_area.specs.Making.{lists_just};
ghost use Rattle.work_area.specs.Making.{mark_for, unused};

use arrayvec::ArrayVec;
use dbf_file::{Field, Table};
use key_lists::KeyList;
use open_table::OpenTable;
use shape::laws::fitting_keys_are_keys;
use shape::{IndexShape, KeyParts, Shape, TableShape};
use std::alloc::{AllocError, Global};

/// The tables, in no area and with no index.
pub(crate) fn unused_tables<K: KeyList>(
    alloc: Global,
    tables: Vec<Table>,
) -> Result<Vec<OpenTable<K>>, AllocError>
    requires { All (λ t. length t.rows ≤ 1000000) tables.items }
    ensures { IfOk result (λ made. made.items ≡ map unused tables.items) }
{
    let mut made = Vec::with_capacity(alloc, tables.len())?;
    for table in tables {
        made.push(OpenTable::new(alloc, table))?;
    }
    Ok(made)
}

/// How a key is spelled, in at most 100 bytes.
fn spelled(key: &KeyParts, fields: &[Field]) -> ArrayVec<u8, 100>
    requires { length (key_text fields.now key.now) ≤ 100 }
    ensures { result.items ≡ key_text fields.now key.now }
{
    let text = key.text(fields);
    let mut copy = ArrayVec::new();
    copy.try_extend_from_slice(text.as_slice()).unwrap();
    copy
}

/// Declares an index of its table, which is in no area, with a list.
fn declare_of<K: KeyList>(
    made: &mut OpenTable<K>,
    table: &TableShape,
    n: usize,
    index: &IndexShape,
    list: Option<K>,
) -> Result<(), AllocError>
    requires key { HasKeyOf table.now index.now }
    requires few { n < 64 }
    requires fields { HaveAlikeFields made.old.table.structure.fields table.now.fields }
    requires unused { made.old.list ≡ [] }
    requires form { IfSome list (λ k. K.form k ≡ key_form table.now index.now) }
    ensures table { made.new ≡ in_table made.old made.new.table }
    ensures ok { OnOk result (HasDeclared
        (IsSomeAnd list (λ k. K.pairs k ≡ index_list index.now.key made.old.table.rows))
        (mark_for n table.now.fields index.now) made.old.table made.new.table) }
{
    fitting_keys_are_keys();
    let text = spelled(&index.key, table.fields.as_slice());
    made.declare_with(n as u8, index.key.copied(), text, list)
}

/// Declares index `n` of a shape, counted from 0, of its table, with a list.
fn declare<K: KeyList>(
    made: &mut Vec<OpenTable<K>>,
    shape: &Shape,
    n: usize,
    list: Option<K>,
) -> Result<(), AllocError>
    requires legal { IsLegal shape.now }
    requires index { n < length shape.now.indexes }
    requires ready { AreReady shape.now made.old.items }
    requires form { (x : TheIndex) (s : TheTable) → slice_get shape.now.indexes n ≡ Some x
        → slice_get shape.now.tables x.table ≡ Some s
        → IfSome list (λ k. K.form k ≡ key_form s x) }
    ensures { OnOk result (IfSome (slice_get shape.now.indexes n)
        (λ x. Declares shape.now (λ wanted. IsSomeAnd list
        (λ k. K.pairs k ≡ wanted)) n x made.old.items made.new.items)) }
{
    let index = shape.indexes.get(n);
    let t = usize::from(index.table);
    declare_of(&mut made[t], shape.tables.get(t), n, index, list)
}

/// Declares the indexes of a shape of their tables, in their order, each with its list.
pub(crate) fn declare_all<K: KeyList>(
    made: &mut Vec<OpenTable<K>>,
    shape: &Shape,
    mut keys: Vec<Option<K>>,
) -> Result<(), AllocError>
    requires legal { IsLegal shape.now }
    requires ready { AreReady shape.now made.old.items }
    requires lists { AreLists K.form shape.now keys.items }
    ensures { (tables : List TableState)
        → AreNewTables shape.now (lists_just K.pairs keys.items) [] tables made.old.items
        → OnOk result (AreNewTables shape.now (lists_just K.pairs keys.items) shape.now.indexes tables made.new.items) }
{
    for n in 0..keys.len() {
        let list = keys[n].take();
        declare(made, shape, n, list)?;
    }
    Ok(())
}
