//! The declared indexes of a table, all at once.

ghost use Rattle.std.specs.Prelude.{◌≡◌, ◌+◌, ◌<◌, ◌≤◌, ◌^◌, IfSome, OnOk, OnErr, Contains, All};
ghost use Rattle.std.specs.Prelude.{is_none, length, slice_index, true};
ghost use Rattle.dbf_file.specs.Rows.{with_text};
ghost use Rattle.dbf_file.specs.Tables.{row_widths};
ghost use Rattle.row_keys.specs.Lists.{kept_rows, row_pair, IsExact, IsIndexOf, IsAsBefore, HasAdded, HasFollowed};
ghost use Rattle.open_table.specs.Slots.{Along, GoesBy, HasRoomForPair, IsSlot, PutsBy, Prepares, committed, discarded};
ghost use Rattle.open_table.specs.Slots.{left_if_open};

use crate::slot::Slot;
use dbf_file::Table;
use key_lists::KeyList;
use row_keys::Kept;
use std::alloc::{AllocError, Global};

/// Makes room for one more pair in each open index.
pub(crate) fn reserve_all<K: KeyList>(
    slots: &mut Vec<Slot<K>>,
    list: &[u8],
) -> Result<(), AllocError>
    requires { All (λ slot. IfSome slot.index (λ x. length x.pairs + 1 < 2 ^ 32)) slots.old.items }
    ensures same { Along (GoesBy (λ parts. IsAsBefore)) slots.old.items slots.new.items }
    ensures ok { OnOk result (All (HasRoomForPair list.now) slots.new.items) }
{
    for slot in slots.iter_mut() {
        slot.reserve(list)?;
    }
    Ok(())
}

/// Gives up the lists of the indexes that aren't open.
pub(crate) fn leave_all<K: KeyList>(slots: &mut Vec<Slot<K>>, list: &[u8])
    ensures { Along (λ a b. b ≡ left_if_open list.now a) slots.old.items slots.new.items }
{
    for slot in slots.iter_mut() {
        slot.leave(list);
    }
}

/// Whether no index has a list.
pub(crate) fn are_stale<K: KeyList>(slots: &Vec<Slot<K>>) -> bool
    ensures { result ≡ true → All (λ slot. is_none slot.index ≡ true) slots.now.items }
{
    slots.iter().all(|slot| slot.is_stale())
}

/// Puts the pair of row `r`, counted from 0, into each list.
pub(crate) fn add_all<K: KeyList>(slots: &mut Vec<Slot<K>>, table: &Table, r: usize)
    requires row { r < length table.now.rows }
    requires few { r < 1000000 }
    requires index { All (λ slot. IfSome slot.index (IsIndexOf table.now.structure slot.parts)) slots.old.items }
    requires reserved { All (λ slot. IfSome slot.index (λ x. 0 < x.spare)) slots.old.items }
    requires absent { All (λ slot. IfSome slot.index
        (λ x. ¬ Contains x.pairs (row_pair slot.parts table.now.rows r))) slots.old.items }
    ensures { Along (GoesBy (HasAdded table.now.rows r)) slots.old.items slots.new.items }
{
    for slot in slots.iter_mut() {
        slot.add_row(table, r);
    }
}

/// Has each list follow a change of row `r`: field `f` of it, both counted from 0, had this text before.
pub(crate) fn follow_all<K: KeyList>(
    slots: &mut Vec<Slot<K>>,
    table: &Table,
    r: usize,
    f: usize,
    before: &[u8],
)
    requires row { r < length table.now.rows }
    requires few { r < 1000000 }
    requires field { f < length table.now.structure.fields }
    requires width { length before.now ≡ slice_index (row_widths table.now.structure) f }
    requires exact { All (λ slot. IfSome slot.index
        (IsExact table.now.structure (with_text table.now.rows r f before.now) slot.parts)) slots.old.items }
    requires reserved { All (λ slot. IfSome slot.index (λ x. 0 < x.spare)) slots.old.items }
    ensures { Along (GoesBy (HasFollowed table.now.structure table.now.rows)) slots.old.items slots.new.items }
{
    for slot in slots.iter_mut() {
        slot.follow(table, r, f, before);
    }
}

/// Makes a list anew of the rows that are kept for each index that is wanted, and puts it by.
fn prepare_all<K: KeyList>(
    alloc: Global,
    slots: &mut Vec<Slot<K>>,
    table: &Table,
    list: &[u8],
    only_stale: bool,
    kept: Kept,
) -> Result<(), AllocError>
    requires few { length table.now.rows ≤ 1000000 }
    requires exact { All (IsSlot table.now.structure table.now.rows) slots.old.items }
    ensures puts { Along PutsBy slots.old.items slots.new.items }
    ensures ok { OnOk result (Along (Prepares table.now.structure
        (kept_rows kept table.now.rows) list.now only_stale) slots.old.items slots.new.items) }
{
    for slot in slots.iter_mut() {
        slot.prepare(alloc, table, list, only_stale, kept)?;
    }
    Ok(())
}

/// Puts what was put by in the lists' places. Where nothing was, a list stays, or is given up.
pub(crate) fn commit_all<K: KeyList>(slots: &mut Vec<Slot<K>>, gives_up: bool)
    ensures { Along (λ a b. b ≡ committed gives_up a) slots.old.items slots.new.items }
{
    for slot in slots.iter_mut() {
        slot.commit(gives_up);
    }
}

/// Gives up what was put by.
fn discard_all<K: KeyList>(slots: &mut Vec<Slot<K>>)
    ensures { Along (λ a b. b ≡ discarded a) slots.old.items slots.new.items }
{
    for slot in slots.iter_mut() {
        slot.discard();
    }
}

/// Makes a list anew of the rows that are kept for each index that is wanted, and puts it by. Where memory is missing,
/// nothing is put by.
pub(crate) fn make_all<K: KeyList>(
    alloc: Global,
    slots: &mut Vec<Slot<K>>,
    table: &Table,
    list: &[u8],
    only_stale: bool,
    kept: Kept,
) -> Result<(), AllocError>
    requires few { length table.now.rows ≤ 1000000 }
    requires exact { All (IsSlot table.now.structure table.now.rows) slots.old.items }
    ensures ok { OnOk result (Along (Prepares table.now.structure
        (kept_rows kept table.now.rows) list.now only_stale) slots.old.items slots.new.items) }
    ensures err { OnErr result (slots.new.items ≡ slots.old.items) }
{
    let made = prepare_all(alloc, slots, table, list, only_stale, kept);
    if made.is_err() {
        discard_all(slots);
    }
    made
}
