//! Changes of a table together with its declared indexes.

ghost use Rattle.std.specs.Prelude.{◌≡◌, ◌<◌, ◌≤◌, OnOk, OnErr, length, slice_index, take};
ghost use Rattle.dbf_file.specs.Rows.{text_at};
ghost use Rattle.dbf_file.specs.Tables.{row_widths, letter_at};
ghost use Rattle.dbf_file.specs.Values.{kind_for};
ghost use Rattle.open_table.specs.Tables.{IsIndexed, indexed, appended, replaced, remade, packed, emptied};
ghost use Rattle.xvalue.specs.Kinds.{kind_of};

use crate::slot::Slot;
use crate::slots::{add_all, are_stale, commit_all, follow_all, leave_all, make_all, reserve_all};
use dbf_file::Table;
use key_lists::KeyList;
use row_keys::Kept;
use row_keys::laws::index_lists;
use std::alloc::{AllocError, Global};
use xvalue::Lent;

/// Adds a blank row, and its pair to each open index; the others go stale. Where memory is missing, rows and lists are
/// as they were.
pub(crate) fn append<K: KeyList>(
    table: &mut Table,
    slots: &mut Vec<Slot<K>>,
    list: &[u8],
) -> Result<(), AllocError>
    requires lists { IsIndexed table.old slots.old.items }
    requires few { length table.old.rows < 1000000 }
    ensures ok { OnOk result (indexed table.new slots.new.items
        ≡ appended list.now (indexed table.old slots.old.items)) }
    ensures err { OnErr result (indexed table.new slots.new.items ≡ indexed table.old slots.old.items) }
    ensures lists { IsIndexed table.new slots.new.items }
{
    index_lists();
    table.reserve_row()?;
    reserve_all(slots, list)?;
    leave_all(slots, list);
    let r = table.rows();
    table.push_blank();
    add_all(slots, table, r);
    Ok(())
}

/// Writes a value of the field's kind into field `f` of row `r`, both counted from 0, and has each open index follow,
/// where the row's key doesn't stay equal; the others go stale. Where memory is missing, rows and lists are as they
/// were.
pub(crate) fn replace<K: KeyList>(
    table: &mut Table,
    slots: &mut Vec<Slot<K>>,
    list: &[u8],
    r: usize,
    f: usize,
    from: &Lent<'_>,
) -> Result<(), AllocError>
    requires lists { IsIndexed table.old slots.old.items }
    requires row { r < length table.old.rows }
    requires field { f < length table.old.structure.fields }
    requires kind { kind_of from.now ≡ kind_for (letter_at table.old.structure f) }
    ensures ok { OnOk result (indexed table.new slots.new.items
        ≡ replaced list.now r f from.now (indexed table.old slots.old.items)) }
    ensures err { OnErr result (indexed table.new slots.new.items ≡ indexed table.old slots.old.items) }
    ensures lists { IsIndexed table.new slots.new.items }
{
    index_lists();
    reserve_all(slots, list)?;
    leave_all(slots, list);
    if are_stale(slots) {
        table.put_at(r, f, from);
        return Ok(());
    }
    let mut room = [0; 255];
    let before = text_of(table, r, f, &mut room);
    table.put_at(r, f, from);
    follow_all(slots, table, r, f, &room[..before]);
    Ok(())
}

/// Copies the text of field `f` of row `r`, both counted from 0, to the front of a room, and answers how long it is.
fn text_of(table: &Table, r: usize, f: usize, room: &mut [u8]) -> usize
    requires row { r < length table.now.rows }
    requires field { f < length table.now.structure.fields }
    requires room { length room.old ≡ 255 }
    ensures text { take result room.new ≡ text_at table.now.rows r f }
    ensures width { result ≡ slice_index (row_widths table.now.structure) f }
    ensures within { result ≤ 255 }
{
    let width = usize::from(table.structure().fields()[f].width);
    let (front, _) = room.split_at_mut(width);
    front.copy_from_slice(&table.field(r, f)[..width]);
    width
}

/// Makes these indexes anew, or those of them that are stale; no row changes, and no other index. Where memory is
/// missing, all is as it was.
pub(crate) fn remake<K: KeyList>(
    alloc: Global,
    table: &Table,
    slots: &mut Vec<Slot<K>>,
    list: &[u8],
    only_stale: bool,
) -> Result<(), AllocError>
    requires lists { IsIndexed table.now slots.old.items }
    ensures ok { OnOk result (indexed table.now slots.new.items
        ≡ remade list.now (indexed table.now slots.old.items)) }
    ensures err { OnErr result (slots.new.items ≡ slots.old.items) }
    ensures lists { IsIndexed table.now slots.new.items }
{
    make_all(alloc, slots, table, list, only_stale, Kept::Every)?;
    commit_all(slots, false);
    Ok(())
}

/// Removes the marked rows, and makes the open indexes anew; the others go stale. Where memory is missing, rows and
/// lists are as they were.
pub(crate) fn pack<K: KeyList>(
    alloc: Global,
    table: &mut Table,
    slots: &mut Vec<Slot<K>>,
    list: &[u8],
) -> Result<(), AllocError>
    requires lists { IsIndexed table.old slots.old.items }
    ensures ok { OnOk result (indexed table.new slots.new.items
        ≡ packed list.now (indexed table.old slots.old.items)) }
    ensures err { OnErr result (indexed table.new slots.new.items ≡ indexed table.old slots.old.items) }
    ensures lists { IsIndexed table.new slots.new.items }
{
    make_all(alloc, slots, table, list, false, Kept::Unmarked)?;
    table.pack();
    commit_all(slots, true);
    Ok(())
}

/// Removes every row, and makes the open indexes anew; the others go stale. Where memory is missing, rows and lists are
/// as they were.
pub(crate) fn clear<K: KeyList>(
    alloc: Global,
    table: &mut Table,
    slots: &mut Vec<Slot<K>>,
    list: &[u8],
) -> Result<(), AllocError>
    requires lists { IsIndexed table.old slots.old.items }
    ensures ok { OnOk result (indexed table.new slots.new.items
        ≡ emptied list.now (indexed table.old slots.old.items)) }
    ensures err { OnErr result (indexed table.new slots.new.items ≡ indexed table.old slots.old.items) }
    ensures lists { IsIndexed table.new slots.new.items }
{
    make_all(alloc, slots, table, list, false, Kept::Nothing)?;
    table.clear();
    commit_all(slots, true);
    Ok(())
}
