//! Moves over a table with its declared indexes.

ghost use Rattle.std.specs.Prelude.{◌≡◌, ℕ, ◌<◌, ◌≤◌, Bool, true, Some, length, map, slice_index_or};
ghost use Rattle.std.specs.Fn.{FnReturnsAt};
ghost use Rattle.row_moves.specs.Moves.{IsMove, landing_of, sought};
ghost use Rattle.open_table.specs.Marks.{mark_at, is_fresh};
ghost use Rattle.open_table.specs.Slots.{SlotState, mark_of};
ghost use Rattle.open_table.specs.Tables.{IsOrder, IsIndexed, order_pairs, pair_at, indexed};
ghost use Rattle.open_table.specs.Tried.{MayAskRows, ShowsRows};

use crate::row::Row;
use crate::slot::Slot;
use dbf_file::Table;
use key_lists::KeyList;
use row_keys::laws::index_lists;
use row_moves::{Landed, Records, RowMove, Spent};

/// Whether a test shows a record, counted from 1.
fn shows<F: Fn(&Row<'_>) -> bool>(see: &F, table: &Table, number: u32) -> bool
    requires callable { MayAskRows F.pre see.now table.now.structure }
    requires first { 1 ≤ number }
    requires last { number ≤ length table.now.rows }
    requires few { length table.now.rows ≤ 1000000 }
    ensures { (shown : ℕ → Bool) → ShowsRows (FnReturnsAt F.Fn) see.now table.now.structure table.now.rows shown
        → result ≡ shown number }
{
    see(&Row::new(table, number as usize - 1, number, table.rows() as u32))
}

/// The place of the index of this number, which is there and isn't stale.
fn place_of<K: KeyList>(slots: &Vec<Slot<K>>, number: u8) -> usize
    requires { is_fresh (mark_at (map mark_of slots.now.items) number) ≡ true }
    ensures within { result < length slots.now.items }
    ensures here { (d : SlotState)
        → mark_at (map mark_of slots.now.items) number ≡ Some (mark_of (slice_index_or slots.now.items result d)) }
{
    for (i, slot) in slots.iter().enumerate() {
        if slot.number() == number {
            return i;
        }
    }
    unreachable!()
}

/// A move in an order: record order, or that of the index of this number; from a record or the end of file.
pub(crate) fn make_move<K: KeyList, F: Fn(&Row<'_>) -> bool>(
    table: &Table,
    slots: &mut Vec<Slot<K>>,
    order: Option<u8>,
    pointer: Option<u32>,
    asked: RowMove,
    see: &F,
    budget: u64,
) -> Result<Landed, Spent>
    requires indexed { IsIndexed table.now slots.old.items }
    requires order { IsOrder order (indexed table.now slots.old.items) }
    requires callable { MayAskRows F.pre see.now table.now.structure }
    ensures lands { (shown : ℕ → Bool) → ShowsRows (FnReturnsAt F.Fn) see.now table.now.structure table.now.rows shown
        → IsMove (landing_of shown asked (pair_at order (indexed table.now slots.old.items) pointer)
        (order_pairs order (indexed table.now slots.old.items))) budget result }
    ensures same { slots.new.items ≡ slots.old.items }
{
    index_lists();
    let test = |n: u32| -> bool
        requires callable { MayAskRows F.pre see.now table.now.structure }
        requires few { length table.now.rows ≤ 1000000 }
        requires first { 1 ≤ n }
        requires last { n ≤ length table.now.rows }
        ensures { (shown : ℕ → Bool)
            → ShowsRows (FnReturnsAt F.Fn) see.entry.now table.entry.now.structure table.entry.now.rows shown
            → result ≡ shown n }
    { shows(see, table, n) };
    match order {
        Some(number) => {
            let place = place_of(slots, number);
            slots[place].make_move(table, pointer, asked, &test, budget)
        }
        None => {
            let count = table.rows() as u32;
            row_moves::make_move(&mut Records { count }, pointer, asked, &test, budget)
        }
    }
}

/// SEEK in the index of this number.
pub(crate) fn seek<K: KeyList, F: Fn(&Row<'_>) -> bool>(
    table: &Table,
    slots: &mut Vec<Slot<K>>,
    number: u8,
    text: &[u8],
    exact: bool,
    see: &F,
    budget: u64,
) -> Result<Landed, Spent>
    requires indexed { IsIndexed table.now slots.old.items }
    requires order { IsOrder (Some number) (indexed table.now slots.old.items) }
    requires callable { MayAskRows F.pre see.now table.now.structure }
    ensures lands { (shown : ℕ → Bool) → ShowsRows (FnReturnsAt F.Fn) see.now table.now.structure table.now.rows shown
        → IsMove (sought shown exact text.now (order_pairs (Some number) (indexed table.now slots.old.items)))
        budget result }
    ensures same { slots.new.items ≡ slots.old.items }
{
    index_lists();
    let test = |n: u32| -> bool
        requires callable { MayAskRows F.pre see.now table.now.structure }
        requires few { length table.now.rows ≤ 1000000 }
        requires first { 1 ≤ n }
        requires last { n ≤ length table.now.rows }
        ensures { (shown : ℕ → Bool)
            → ShowsRows (FnReturnsAt F.Fn) see.entry.now table.entry.now.structure table.entry.now.rows shown
            → result ≡ shown n }
    { shows(see, table, n) };
    let place = place_of(slots, number);
    slots[place].seek(table, text, exact, &test, budget)
}
