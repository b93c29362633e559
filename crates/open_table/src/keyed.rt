//! Declared indexes by their numbers.

ghost use Rattle.std.specs.Prelude.{◌↔◌, ◌≡◌, ◌≤◌, List, All, length, map, is_some, IfSome, IsTrue};
ghost use Rattle.dbf_file.specs.Rows.{Row as TheRow};
ghost use Rattle.dbf_file.specs.Tables.{StructureState, TableState};
ghost use Rattle.shape.specs.Keys.{IsKey};
ghost use Rattle.row_keys.specs.Lists.{index_list};
ghost use Rattle.open_table.specs.Marks.{mark_at, is_fresh, parts_in, form_in, count_stale};
ghost use Rattle.open_table.specs.Slots.{IsSlot, mark_of};
ghost use Rattle.open_table.specs.Tables.{IsOrder, indexed, order_parts};

use crate::slot::Slot;
use dbf_file::Table;
use key_lists::KeyList;
use shape::KeyParts;

/// How the keys of the index of this number are made; without such an index of no parts.
fn key_at<K: KeyList>(slots: &Vec<Slot<K>>, number: u8) -> KeyParts
    ensures value { result ≡ parts_in (mark_at (map mark_of slots.now.items) number) }
    ensures sound { (s : StructureState) (rows : List TheRow) → All (IsSlot s rows) slots.now.items → 1 ≤ length result
        → IsKey s result }
{
    for (i, slot) in slots.iter().enumerate() {
        if slot.number() == number {
            return slot.key_parts();
        }
    }
    KeyParts::new(&[])
}

/// How the keys of an order are made; those of record order have no parts.
pub(crate) fn key_of_order<K: KeyList>(slots: &Vec<Slot<K>>, order: Option<u8>) -> KeyParts
    ensures value { result ≡ order_parts order (map mark_of slots.now.items) }
    ensures sound { (s : StructureState) (rows : List TheRow) → All (IsSlot s rows) slots.now.items → 1 ≤ length result
        → IsKey s result }
{
    match order {
        Some(number) => key_at(slots, number),
        None => KeyParts::new(&[]),
    }
}

/// Whether the index of this number is there and isn't stale.
pub(crate) fn has_fresh<K: KeyList>(slots: &Vec<Slot<K>>, number: u8) -> bool
    ensures { result ≡ is_fresh (mark_at (map mark_of slots.now.items) number) }
{
    for (i, slot) in slots.iter().enumerate() {
        if slot.number() == number {
            return !slot.is_stale();
        }
    }
    false
}

/// Whether there is a list of the rows in an order: it is record order, or its index isn't stale.
pub(crate) fn has_order<K: KeyList>(slots: &Vec<Slot<K>>, order: Option<u8>) -> bool
    ensures { (table : TableState) → IsTrue result ↔ IsOrder order (indexed table slots.now.items) }
{
    match order {
        Some(number) => has_fresh(slots, number),
        None => true,
    }
}

/// Whether there is an index of this number.
pub(crate) fn has_slot<K: KeyList>(slots: &Vec<Slot<K>>, number: u8) -> bool
    ensures { result ≡ is_some (mark_at (map mark_of slots.now.items) number) }
{
    for (i, slot) in slots.iter().enumerate() {
        if slot.number() == number {
            return true;
        }
    }
    false
}

/// How many of these indexes are stale.
pub(crate) fn stale_in<K: KeyList>(slots: &Vec<Slot<K>>, list: &[u8]) -> usize
    ensures value { result ≡ count_stale list.now (map mark_of slots.now.items) }
    ensures few { result ≤ length list.now }
{
    let mut rest = list;
    let mut stale = 0;
    while let Some((number, others)) = rest.split_first() {
        if !has_fresh(slots, *number) {
            stale += 1;
        }
        rest = others;
    }
    stale
}

/// The list of the index of this number; none where it is stale, or there is no such index. It lists the rows under the
/// declared key.
pub(crate) fn keys_at<'a, K: KeyList>(
    table: &Table,
    slots: &'a Vec<Slot<K>>,
    number: u8,
) -> Option<&'a K>
    requires { All (IsSlot table.now.structure table.now.rows) slots.now.items }
    ensures fresh { is_some result ≡ is_fresh (mark_at (map mark_of slots.now.items) number) }
    ensures exact { IfSome result (λ keys. K.pairs keys.now
        ≡ index_list (parts_in (mark_at (map mark_of slots.now.items) number)) table.now.rows) }
    ensures form { IfSome result (λ keys. K.form keys.now
        ≡ form_in table.now.structure (mark_at (map mark_of slots.now.items) number)) }
{
    for (i, slot) in slots.iter().enumerate() {
        if slot.number() == number {
            return slot.keys();
        }
    }
    None
}
