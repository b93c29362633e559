//! A tree from pairs that rise, level by level.
//!
//! Each level's pages are made from the last to the first, and are full. What is left at the front is one page, or two
//! that share it, so that each page but the root is at least half full.

ghost use Rattle.std.specs.Prelude.{◌≡◌, ℕ, ◌+◌, ◌*◌, ◌-◌, ◌^◌, ◌<◌, ◌≤◌, [], length, take, drop, IfOk, OnOk};
ghost use Rattle.std.specs.Vec.{vec_len};
ghost use Rattle.key_rows.specs.Flat.{HaveKeys};
ghost use Rattle.ndx_tree.specs.Rooms.{AreKeyed};
ghost use Rattle.ndx_tree.specs.Levels.{IsAbove};
ghost use Rattle.key_lists.specs.Order.{Each};
ghost use Rattle.ndx_tree.specs.Pages.{AreChildren, IsCut, pairs_of_pages, view_of};
ghost use Rattle.key_lists.specs.Rising.{IsRising};
ghost use Rattle.ndx_tree.specs.Trees.{IsRoot};

use crate::lists::move_tail;
use crate::page::{Blank, TreePage};
use key_lists::Entry;
use key_rows::Entries;
use std::alloc::{AllocError, Global};

// How many of those that are left one page gets: as many as it may have, or half of them, where the page after it would
// get too few.
fn share(left: usize, most: usize, least: usize) -> usize
    requires some { 0 < least }
    requires enough { least ≤ left }
    requires half { 2 * least ≤ most + 1 }
    requires bound { most < 1000 }
    ensures least { least ≤ result }
    ensures most { result ≤ most }
    ensures within { result ≤ left }
    ensures rest { result < left → result + least ≤ left }
{
    if left <= most {
        return left;
    }
    if left >= most + least {
        return most;
    }
    left / 2
}

// Puts entries into an empty row that has room.
fn fill_row(row: &mut Entries, entries: &[Entry])
    requires empty { row.old.items ≡ [] }
    requires keyed { (k : ℕ) × HaveKeys k entries.now × (length entries.now * (k + 4) ≤ row.old.room) }
    ensures items { row.new.items ≡ entries.now }
    ensures room { row.old.room ≤ row.new.room }
{
    for entry in entries {
        let end = row.len();
        row.put(end, entry);
    }
}

/// Entries whose keys have one length, side by side in a row.
pub(crate) fn row_of(
    alloc: Global,
    key_length: usize,
    entries: &[Entry],
) -> Result<Entries, AllocError>
    requires short { key_length ≤ 100 }
    requires few { length entries.now < 2 ^ 32 }
    requires keys { HaveKeys key_length entries.now }
    ensures { IfOk result (λ row. row.items ≡ entries.now) }
{
    let mut row = Entries::with_room(alloc, entries.len() * (key_length + 4))?;
    fill_row(&mut row, entries);
    Ok(row)
}

// A leaf of so many entries from a place on.
fn leaf_with(
    alloc: Global,
    most: usize,
    entries: &Entries,
    at: usize,
    count: usize,
) -> Result<TreePage, AllocError>
    requires most { (4 ≤ most) × (most < 1000) }
    requires within { at + count ≤ length entries.now.items }
    requires rising { IsRising entries.now.items }
    requires keyed { AreKeyed most entries.now.items }
    requires full { count ≤ most }
    ensures { IfOk result (λ page. page ≡ view_of most (take count (drop at entries.now.items)) []) }
{
    let Blank {
        entries: mut row,
        children,
    } = Blank::leaf(alloc, most)?;
    entries.copy_part(at, count, &mut row);
    Ok(TreePage::of_parts(most, row, children))
}

// The leaves of more entries than one page may have.
fn leaves(alloc: Global, most: usize, entries: &Entries) -> Result<Vec<TreePage>, AllocError>
    requires most { (4 ≤ most) × (most < 1000) }
    requires rising { IsRising entries.now.items }
    requires keyed { AreKeyed most entries.now.items }
    requires more { most < length entries.now.items }
    ensures level { IfOk result (λ row. AreChildren 1 most row.items) }
    ensures pairs { IfOk result (λ row. pairs_of_pages row.items ≡ entries.now.items) }
    ensures two { IfOk result (λ row. 1 < vec_len row) }
{
    let mut row = Vec::new(alloc);
    let mut left = entries.len();
    while left > 0 {
        let count = share(left, most, most / 2);
        left -= count;
        row.push(leaf_with(alloc, most, entries, left, count)?)?;
    }
    row.reverse();
    Ok(row)
}

// Puts the last pair of each child but the last one into an empty row that has room.
fn separate(row: &mut Entries, children: &[TreePage])
    requires empty { row.old.items ≡ [] }
    requires some { 0 < length children.now }
    requires filled { Each (λ c. 0 < length c.pairs) children.now }
    requires keyed { (k : ℕ) × HaveKeys k (pairs_of_pages children.now)
        × (length children.now * (k + 4) ≤ row.old.room) }
    ensures cut { IsCut row.new.items children.now }
    ensures room { row.old.room ≤ row.new.room }
{
    for at in 1..children.len() {
        let mut seen = 0;
        let last = children[at - 1].last_pair(&mut seen);
        row.put(at - 1, &last);
    }
}

// A page above the last so many of a row, which it takes out.
fn parent(
    alloc: Global,
    most: usize,
    row: &mut Vec<TreePage>,
    count: usize,
) -> Result<TreePage, AllocError>
    requires most { (4 ≤ most) × (most < 1000) }
    requires level { (h : ℕ) × AreChildren h most row.old.items }
    requires rising { IsRising (pairs_of_pages row.old.items) }
    requires keyed { AreKeyed most (pairs_of_pages row.old.items) }
    requires two { 1 < count }
    requires full { count ≤ most + 1 }
    requires within { count ≤ vec_len row.old }
    ensures row { OnOk result (row.new.items ≡ take (vec_len row.old - count) row.old.items) }
    ensures above { IfOk result (λ page. IsAbove most (drop (vec_len row.old - count) row.old.items) page) }
{
    let Blank {
        mut entries,
        mut children,
    } = Blank::inner(alloc, most)?;
    let kept = row.len() - count;
    move_tail(row, kept, &mut children);
    separate(&mut entries, &children);
    Ok(TreePage::of_parts(most, entries, children))
}

// The pages above a row of more than one page may have below it.
fn parents(alloc: Global, most: usize, mut row: Vec<TreePage>) -> Result<Vec<TreePage>, AllocError>
    requires most { (4 ≤ most) × (most < 1000) }
    requires level { (h : ℕ) × AreChildren h most row.items }
    requires rising { IsRising (pairs_of_pages row.items) }
    requires keyed { AreKeyed most (pairs_of_pages row.items) }
    requires more { most + 1 < vec_len row }
    ensures level { IfOk result (λ above. (h : ℕ) → AreChildren h most row.items
        → AreChildren (h + 1) most above.items) }
    ensures pairs { IfOk result (λ above. pairs_of_pages above.items ≡ pairs_of_pages row.items) }
    ensures two { IfOk result (λ above. 1 < vec_len above) }
    ensures fewer { IfOk result (λ above. vec_len above < vec_len row) }
{
    let mut above = Vec::new(alloc);
    while !row.is_empty() {
        let count = share(row.len(), most + 1, most / 2 + 1);
        above.push(parent(alloc, most, &mut row, count)?)?;
    }
    above.reverse();
    Ok(above)
}

// The root above a row of pages.
fn root_above(alloc: Global, most: usize, mut row: Vec<TreePage>) -> Result<TreePage, AllocError>
    requires most { (4 ≤ most) × (most < 1000) }
    requires level { (h : ℕ) × AreChildren h most row.items }
    requires rising { IsRising (pairs_of_pages row.items) }
    requires keyed { AreKeyed most (pairs_of_pages row.items) }
    requires two { 1 < vec_len row }
    ensures root { IfOk result IsRoot }
    ensures pairs { IfOk result (λ root. root.pairs ≡ pairs_of_pages row.items) }
    ensures most { IfOk result (λ root. root.most ≡ most) }
{
    if row.len() > most + 1 {
        return root_above(alloc, most, parents(alloc, most, row)?);
    }
    let count = row.len();
    parent(alloc, most, &mut row, count)
}

/// The root of a tree of entries that rise.
pub(crate) fn root_of(alloc: Global, most: usize, entries: &Entries) -> Result<TreePage, AllocError>
    requires most { (4 ≤ most) × (most < 1000) }
    requires rising { IsRising entries.now.items }
    requires keyed { AreKeyed most entries.now.items }
    ensures root { IfOk result IsRoot }
    ensures pairs { IfOk result (λ root. root.pairs ≡ entries.now.items) }
    ensures most { IfOk result (λ root. root.most ≡ most) }
{
    if entries.len() <= most {
        return leaf_with(alloc, most, entries, 0, entries.len());
    }
    root_above(alloc, most, leaves(alloc, most, entries)?)
}
