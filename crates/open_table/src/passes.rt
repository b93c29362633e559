//! TOP found by passes over all rows in record order, where there is no list of them. They take no memory.

ghost use Rattle.std.specs.Prelude.{◌≡◌, ℕ, ◌<◌, ◌≤◌, Bool, true, option_map, length};
ghost use Rattle.std.specs.Prelude.{if◌then◌else◌};
ghost use Rattle.std.specs.Fn.{FnReturnsAt};
ghost use Rattle.dbf_file.specs.Rows.{row_at};
ghost use Rattle.shape.specs.Keys.{IsKey, key_of};
ghost use Rattle.row_keys.specs.Lists.{index_list, kept_rows};
ghost use Rattle.row_moves.specs.Moves.{IsMove, end_of, first_shown};
ghost use Rattle.open_table.specs.Passes.{with_tried, lesser as lesser_of, is_met as is_met_of, count_met};
ghost use Rattle.open_table.specs.Passes.{at_higher_cost};
ghost use Rattle.open_table.specs.Tried.{MayAskRows, ShowsRows};

use crate::row::Row;
use dbf_file::Table;
use key_lists::Entry;
use key_lists::laws::orders_pairs;
use row_keys::laws::index_lists;
use row_keys::{Kept, keeps};
use row_moves::{Landed, Spent};
use shape::KeyParts;

/// The pair of row `r`, counted from 0, with a number. A key of no parts is that of record order.
fn entry_by(key: &KeyParts, table: &Table, r: usize, number: u32) -> Entry
    requires row { r < length table.now.rows }
    requires key { 1 ≤ length key.now → IsKey table.now.structure key.now }
    ensures { result ≡ (key_of key.now (row_at table.now.rows r).texts, number) }
{
    if key.parts().is_empty() {
        return Entry::new(&[], number);
    }
    let text = key.row_key(table, r);
    Entry::new(text.as_slice(), number)
}

/// The one of two places that comes first.
fn lesser(entry: Entry, best: Option<Entry>) -> Entry
    ensures { result ≡ lesser_of entry best }
{
    let Some(other) = best else {
        return entry;
    };
    if other.is_before(entry.key(), entry.number()) {
        other
    } else {
        entry
    }
}

/// Whether a move from the start meets this place. The move ends at the best place, or at the end of file.
fn is_met(best: &Option<Entry>, entry: &Entry) -> bool
    ensures { result ≡ is_met_of best.now entry.now }
{
    match best {
        Some(other) => !other.is_before(entry.key(), entry.number()),
        None => true,
    }
}

/// How many rows are kept.
#[tactic(auto, using(row_keys::proofs::ListLemmas::kept_more))]
pub(crate) fn count_kept(table: &Table, kept: Kept) -> u32
    requires { length table.now.rows ≤ 1000000 }
    ensures value { result ≡ length (kept_rows kept table.now.rows) }
    ensures few { result ≤ length table.now.rows }
{
    let mut number = 0;
    for r in 0..table.rows() {
        if keeps(kept, table, r) {
            number += 1;
        }
    }
    number
}

/// The first place so far that is shown, after the row of one more.
fn try_row<F: Fn(&Row<'_>) -> bool>(
    best: Option<Entry>,
    table: &Table,
    key: &KeyParts,
    r: usize,
    number: u32,
    count: u32,
    see: &F,
) -> Option<Entry>
    requires row { r < length table.now.rows }
    requires key { 1 ≤ length key.now → IsKey table.now.structure key.now }
    requires callable { MayAskRows F.pre see.now table.now.structure }
    ensures { (shown : Bool)
        → ((a : Bool) → FnReturnsAt F.Fn see.now
        (record {
          structure = table.now.structure;
          row = row_at table.now.rows r;
          number = number;
          count = count;
        }) a → a ≡ shown)
        → result ≡ with_tried shown (key_of key.now (row_at table.now.rows r).texts, number) best }
{
    if !sees(see, table, r, number, count) {
        return best;
    }
    Some(lesser(entry_by(key, table, r, number), best))
}

/// Whether a test shows row `r`, counted from 0, as record `number` of `count`.
fn sees<F: Fn(&Row<'_>) -> bool>(see: &F, table: &Table, r: usize, number: u32, count: u32) -> bool
    requires row { r < length table.now.rows }
    requires callable { MayAskRows F.pre see.now table.now.structure }
    ensures { (shown : Bool)
        → ((a : Bool) → FnReturnsAt F.Fn see.now
        (record {
          structure = table.now.structure;
          row = row_at table.now.rows r;
          number = number;
          count = count;
        }) a → a ≡ shown)
        → result ≡ shown }
{
    see(&Row::new(table, r, number, count))
}

/// The first shown place among the rows that are kept, in the order of a key.
fn first_place<F: Fn(&Row<'_>) -> bool>(
    table: &Table,
    key: &KeyParts,
    kept: Kept,
    count: u32,
    see: &F,
) -> Option<Entry>
    requires few { length table.now.rows ≤ 1000000 }
    requires key { 1 ≤ length key.now → IsKey table.now.structure key.now }
    requires count { count ≡ length (kept_rows kept table.now.rows) }
    requires callable { MayAskRows F.pre see.now table.now.structure }
    ensures { (shown : ℕ → Bool)
        → ShowsRows (FnReturnsAt F.Fn) see.now table.now.structure (kept_rows kept table.now.rows) shown
        → result ≡ first_shown shown (index_list key.now (kept_rows kept table.now.rows)) }
{
    index_lists();
    orders_pairs();
    let mut best = None;
    let mut number = 0;
    for r in 0..table.rows() {
        if keeps(kept, table, r) {
            number += 1;
            best = try_row(best, table, key, r, number, count, see);
        }
    }
    best
}

/// One where a move from the start to the best place, or to the end of file, meets the place of row `r`, else 0.
fn one_if_met(best: &Option<Entry>, table: &Table, key: &KeyParts, r: usize, number: u32) -> u64
    requires row { r < length table.now.rows }
    requires key { 1 ≤ length key.now → IsKey table.now.structure key.now }
    ensures value { result ≡ (if is_met_of best.now (key_of key.now (row_at table.now.rows r).texts, number) then 1
        else 0) }
    ensures small { result ≤ 1 }
{
    let entry = entry_by(key, table, r, number);
    if is_met(best, &entry) { 1 } else { 0 }
}

/// How many of the rows that are kept a move from the start to the best place, or to the end of file, meets.
fn met_before(table: &Table, key: &KeyParts, kept: Kept, best: &Option<Entry>) -> u64
    requires few { length table.now.rows ≤ 1000000 }
    requires key { 1 ≤ length key.now → IsKey table.now.structure key.now }
    ensures met { result ≡ count_met best.now (index_list key.now (kept_rows kept table.now.rows)) }
    ensures few { result ≤ 1000000 }
{
    index_lists();
    orders_pairs();
    let mut met = 0;
    let mut number = 0;
    for r in 0..table.rows() {
        if keeps(kept, table, r) {
            number += 1;
            met += one_if_met(best, table, key, r, number);
        }
    }
    met
}

/// TOP among the rows that are kept, in the order of a key, at a cost that is higher by a base. No parts are record
/// order. Where the budget doesn't cover the base, no row is passed.
pub(crate) fn first_of<F: Fn(&Row<'_>) -> bool>(
    table: &Table,
    key: &KeyParts,
    kept: Kept,
    see: &F,
    base: u64,
    budget: u64,
) -> Result<Landed, Spent>
    requires few { length table.now.rows ≤ 1000000 }
    requires key { 1 ≤ length key.now → IsKey table.now.structure key.now }
    requires callable { MayAskRows F.pre see.now table.now.structure }
    requires base { base ≤ 1000000000 }
    requires paid { length table.now.rows ≤ base }
    ensures { (shown : ℕ → Bool)
        → ShowsRows (FnReturnsAt F.Fn) see.now table.now.structure (kept_rows kept table.now.rows) shown
        → IsMove (at_higher_cost base
        (end_of shown true (index_list key.now (kept_rows kept table.now.rows)))) budget result }
{
    if budget <= base {
        return Err(Spent);
    }
    index_lists();
    orders_pairs();
    let count = count_kept(table, kept);
    let best = first_place(table, key, kept, count, see);
    let cost = 1 + base + met_before(table, key, kept, &best);
    if cost > budget {
        return Err(Spent);
    }
    Ok(Landed {
        row: record_of(&best),
        cost,
        bof: best.is_none(),
        found: false,
    })
}

/// The record of a place.
fn record_of(at: &Option<Entry>) -> Option<u32>
    ensures { result ≡ option_map (λ p. p.1) at.now }
{
    match at {
        Some(entry) => Some(entry.number()),
        None => None,
    }
}
