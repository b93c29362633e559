//! Changes that end with TOP, which is judged before anything changes.
//!
//! TOP goes along the list of its order, and meets at most one row more than the rest of the budget pays for. Where
//! that list is stale, or is made anew of the rows that are kept, passes over the rows find TOP. The base pays for
//! them, and where the budget doesn't cover the base, no pass is made.

ghost use Rattle.std.specs.Prelude.{◌≡◌, ℕ, ◌+◌, ◌*◌, ◌^◌, ◌<◌, ◌≤◌, Bool, true, length, map, OnOk, OnErr};
ghost use Rattle.std.specs.Fn.{FnReturnsAt};
ghost use Rattle.dbf_file.specs.Rows.{unmarked};
ghost use Rattle.row_keys.specs.Lists.{kept_rows};
ghost use Rattle.row_moves.specs.Moves.{IsMove, Landing, Lands, end_of};
ghost use Rattle.open_table.specs.Passes.{at_higher_cost, EndsWithMove};
ghost use Rattle.open_table.specs.Slots.{mark_of};
ghost use Rattle.open_table.specs.Tables.{IsIndexed, IsOrder, indexed, order_pairs, pairs_in_order, packed, remade};
ghost use Rattle.open_table.specs.Tried.{MayAskRows, ShowsRows};

use crate::changes;
use crate::keyed::{has_order, key_of_order};
use crate::passes::{count_kept, first_of};
use crate::refused::Refused;
use crate::row::Row;
use crate::slot::Slot;
use crate::trying::make_move;
use dbf_file::Table;
use key_lists::KeyList;
use key_lists::laws::puts_in_order;
use row_keys::Kept;
use row_moves::{Landed, RowMove, Spent};
use std::alloc::Global;

/// TOP in an order, at a cost that is higher by a base.
pub(crate) fn judge<K: KeyList, F: Fn(&Row<'_>) -> bool>(
    table: &Table,
    slots: &mut Vec<Slot<K>>,
    order: Option<u8>,
    see: &F,
    base: u64,
    budget: u64,
) -> Result<Landed, Spent>
    requires indexed { IsIndexed table.now slots.old.items }
    requires callable { MayAskRows F.pre see.now table.now.structure }
    requires base { base ≤ 1000000000 }
    requires paid { ¬ IsOrder order (indexed table.now slots.old.items)
        → length table.now.rows ≤ base }
    ensures lands { (shown : ℕ → Bool) → ShowsRows (FnReturnsAt F.Fn) see.now table.now.structure table.now.rows shown
        → IsMove (at_higher_cost base (end_of shown true (order_pairs order
        (indexed table.now slots.old.items)))) budget result }
    ensures same { slots.new.items ≡ slots.old.items }
{
    if has_order(slots, order) {
        return judge_along(table, slots, order, see, base, budget);
    }
    judge_kept(table, slots, order, Kept::Every, see, base, budget)
}

/// TOP along the list of an order, at a cost that is higher by a base.
fn judge_along<K: KeyList, F: Fn(&Row<'_>) -> bool>(
    table: &Table,
    slots: &mut Vec<Slot<K>>,
    order: Option<u8>,
    see: &F,
    base: u64,
    budget: u64,
) -> Result<Landed, Spent>
    requires indexed { IsIndexed table.now slots.old.items }
    requires order { IsOrder order (indexed table.now slots.old.items) }
    requires callable { MayAskRows F.pre see.now table.now.structure }
    requires base { base ≤ 1000000000 }
    ensures lands { (shown : ℕ → Bool) → ShowsRows (FnReturnsAt F.Fn) see.now table.now.structure table.now.rows shown
        → IsMove (at_higher_cost base (end_of shown true (order_pairs order
        (indexed table.now slots.old.items)))) budget result }
    ensures same { slots.new.items ≡ slots.old.items }
{
    if budget < base {
        return Err(Spent);
    }
    match make_move(table, slots, order, None, RowMove::Top, see, budget - base) {
        Ok(landed) => Ok(dearer(landed, base)),
        Err(spent) => Err(spent),
    }
}

/// The same move, at a cost that is higher by a base.
fn dearer(landed: Landed, base: u64) -> Landed
    ensures { (landing : Landing) (budget left : ℕ) → Lands landing left landed → left + base ≤ budget → budget < 2 ^ 64
        → Lands (at_higher_cost base landing) budget result }
{
    Landed {
        cost: landed.cost.saturating_add(base),
        ..landed
    }
}

/// TOP in an order among the rows that are kept, at a cost that is higher by a base, which pays for the passes.
pub(crate) fn judge_kept<K: KeyList, F: Fn(&Row<'_>) -> bool>(
    table: &Table,
    slots: &Vec<Slot<K>>,
    order: Option<u8>,
    kept: Kept,
    see: &F,
    base: u64,
    budget: u64,
) -> Result<Landed, Spent>
    requires indexed { IsIndexed table.now slots.now.items }
    requires callable { MayAskRows F.pre see.now table.now.structure }
    requires base { base ≤ 1000000000 }
    requires paid { length table.now.rows ≤ base }
    ensures { (shown : ℕ → Bool)
        → ShowsRows (FnReturnsAt F.Fn) see.now table.now.structure (kept_rows kept table.now.rows) shown
        → IsMove (at_higher_cost base (end_of shown true
        (pairs_in_order order (map mark_of slots.now.items) (kept_rows kept table.now.rows)))) budget result }
{
    puts_in_order();
    let key = key_of_order(slots, order);
    first_of(table, &key, kept, see, base, budget)
}

/// Makes these indexes anew, or those of them that are stale, and ends with TOP in an order, at a cost that is higher by
/// a base. Where it is refused, all is as it was.
pub(crate) fn make_and_top<K: KeyList, F: Fn(&Row<'_>) -> bool>(
    alloc: Global,
    table: &Table,
    slots: &mut Vec<Slot<K>>,
    list: &[u8],
    only_stale: bool,
    order: Option<u8>,
    see: &F,
    base: u64,
    budget: u64,
) -> Result<Landed, Refused>
    requires lists { IsIndexed table.now slots.old.items }
    requires callable { MayAskRows F.pre see.now table.now.structure }
    requires base { base ≤ 1000000000 }
    // Where the list of the order isn't there, the base pays for passes over the rows.
    requires paid { ¬ IsOrder order (indexed table.now slots.old.items) → length table.now.rows ≤ base }
    ensures lands { (shown : ℕ → Bool) → ShowsRows (FnReturnsAt F.Fn) see.now table.now.structure table.now.rows shown
        → EndsWithMove (at_higher_cost base (end_of shown true (order_pairs order (indexed table.now slots.old.items))))
        budget result }
    ensures ok { OnOk result (indexed table.now slots.new.items
        ≡ remade list.now (indexed table.now slots.old.items)) }
    ensures err { OnErr result (slots.new.items ≡ slots.old.items) }
    ensures lists { IsIndexed table.now slots.new.items }
{
    let Ok(landed) = judge(table, slots, order, see, base, budget) else {
        return Err(Refused::Spent);
    };
    match changes::remake(alloc, table, slots, list, only_stale) {
        Ok(()) => Ok(landed),
        Err(_) => Err(Refused::NoMemory),
    }
}

/// Removes the marked rows and makes the open indexes anew, at the cost of the rows that there were, and of those that
/// are kept for each open index; the others go stale. It ends with TOP in an order. Where it is refused, all is as it
/// was.
pub(crate) fn pack<K: KeyList, F: Fn(&Row<'_>) -> bool>(
    alloc: Global,
    table: &mut Table,
    slots: &mut Vec<Slot<K>>,
    list: &[u8],
    order: Option<u8>,
    see: &F,
    budget: u64,
) -> Result<Landed, Refused>
    requires lists { IsIndexed table.old slots.old.items }
    requires callable { MayAskRows F.pre see.now table.old.structure }
    requires few { length list.now ≤ 7 }
    // The rows that the test is asked for are those that are kept, as they are numbered then.
    ensures lands { (shown : ℕ → Bool)
        → ShowsRows (FnReturnsAt F.Fn) see.now table.old.structure (unmarked table.old.rows) shown
        → EndsWithMove (at_higher_cost (length table.old.rows + length (unmarked table.old.rows) * length list.now)
        (end_of shown true (pairs_in_order order (map mark_of slots.old.items) (unmarked table.old.rows))))
        budget result }
    ensures ok { OnOk result (indexed table.new slots.new.items
        ≡ packed list.now (indexed table.old slots.old.items)) }
    ensures err { OnErr result (indexed table.new slots.new.items ≡ indexed table.old slots.old.items) }
    ensures lists { IsIndexed table.new slots.new.items }
{
    let count = table.rows() as u64;
    if budget <= count {
        return Err(Refused::Spent);
    }
    let kept = count_kept(table, Kept::Unmarked);
    let base = count + u64::from(kept) * list.len() as u64;
    let Ok(landed) = judge_kept(table, slots, order, Kept::Unmarked, see, base, budget) else {
        return Err(Refused::Spent);
    };
    match changes::pack(alloc, table, slots, list) {
        Ok(()) => Ok(landed),
        Err(_) => Err(Refused::NoMemory),
    }
}
