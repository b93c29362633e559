//! A table in use.

ghost use Rattle.std.specs.Prelude.{◌≡◌, ℕ, ◌+◌, ◌<◌, ◌≤◌, Bool, true, false, Some, None, [], OnOk, OnErr, Err};
ghost use Rattle.std.specs.Prelude.{◌↔◌, MatchOption, length, is_none, unwrap_or, IfSome, IsSomeAnd, true, is_ok};
ghost use Rattle.std.specs.Prelude.{is_some, ◌∷◌, slice_get, slice_index_or, All, ◌*◌};
ghost use Rattle.std.specs.Fn.{FnReturnsAt};
ghost use Rattle.dbf_file.specs.Rows.{blank_row};
ghost use Rattle.dbf_file.specs.Tables.{letter_at, decimals_at, row_widths};
ghost use Rattle.dbf_file.specs.Values.{kind_for, value_by};
ghost use Rattle.xvalue.specs.Kinds.{kind_of};
ghost use Rattle.key_lists.specs.KeyForm.{IsKeyText};
ghost use Rattle.row_keys.specs.Lists.{index_list};
ghost use Rattle.shape.specs.Keys.{IsKey, key_length};
ghost use Rattle.row_moves.specs.Moves.{Landing, IsMove, end_of, landing_of, sought};
ghost use Rattle.open_table.specs.Tables.{HasDeclared, IsOrder, order_pairs, pairs_in_order, pair_at, packed, emptied};
ghost use Rattle.open_table.specs.Tables.{remade};
ghost use Rattle.open_table.specs.Marks.{mark_at, is_fresh, count_stale, form_in, parts_in};
ghost use Rattle.open_table.specs.Passes.{at_higher_cost, EndsWithMove};
ghost use Rattle.dbf_file.specs.Rows.{unmarked};
ghost use Rattle.open_table.specs.Tried.{MayAskRows, ShowsRows};
ghost use Rattle.open_table.specs.Open.{IsMoved, IsEnded, opened, closed, first_order, in_table, order_index};
ghost use Rattle.open_table.specs.Open.{gone_to, with_blank, place_in, replaced_here, remarked_here, reordered};
ghost use Rattle.open_table.specs.Open.{deleted_of, field_of, landed as landed_at, within, within as within_of};

use crate::closing::make_and_top;
use crate::keyed::{has_slot, keys_at, stale_in};
use crate::slot::{Slot, slot_with};
use crate::{Refused, Row, changes, closing, trying};
use arrayvec::ArrayVec;
use dbf_file::{Table, lent};
use key_lists::KeyList;
use row_keys::laws::index_lists;
use row_moves::{Landed, RowMove, Spent};
use shape::KeyParts;
use std::alloc::{AllocError, Global};
use std::marker::Model;
use xvalue::Lent;

/// The text of a longest field of blanks.
const BLANKS: &[u8] = &[b' '; 255];

/// A table with its declared indexes, in use: the open ones, an order, a pointer, and the answers of BOF() and FOUND().
/// Each index that isn't stale lists the rows.
#[derive(Drop)]
pub struct OpenTable<K: KeyList> {
    table: Table,
    slots: Vec<Slot<K>>,
    list: ArrayVec<u8, 7>,
    order: u8,
    pointer: Option<u32>,
    bof: bool,
    found: bool,
}

impl<K: KeyList> Model for OpenTable<K> {
    ghost use Rattle.open_table.specs.Tables.{indexed};
    ghost use Rattle.open_table.specs.Open.{OpenState, IsInUse};

    ghost Value = { OpenState };

    ghost view = { λ t. record {
      table = indexed t.table t.slots.items;
      list = t.list.items;
      order = t.order;
      pointer = t.pointer;
      bof = t.bof;
      found = t.found;
    } };

    ghost invariant = { λ t. IsInUse t.table t.slots.items t.list.items t.order };
}

/// Why no row was added.
#[derive(Debug, Clone, Copy, PartialEq, Eq)]
pub enum AppendError {
    /// There are as many rows as the limit.
    Full,
    /// Memory is missing.
    NoMemory,
}

/// The record of a number, if there are so many.
fn record_within(count: u32, number: Option<u32>) -> Option<u32>
    ensures { result ≡ within_of count number }
{
    match number {
        Some(n) => {
            if n >= 1 && n <= count {
                return Some(n);
            }
            None
        }
        None => None,
    }
}

impl<K: KeyList> OpenTable<K> {
    /// A table of at most 1,000,000 rows in use, with no index, at the end of file.
    pub fn new(alloc: Global, table: Table) -> Self
        requires { length table.rows ≤ 1000000 }
        ensures { result ≡ record {
          table = record { structure = table.structure; rows = table.rows; marks = [] };
          list = [];
          order = 0;
          pointer = None;
          bof = false;
          found = false;
        } }
    {
        OpenTable {
            table,
            slots: Vec::new(alloc),
            list: ArrayVec::new(),
            order: 0,
            pointer: None,
            bof: false,
            found: false,
        }
    }

    /// Declares an index of a table that has no open index. The list is one of the index's key, or none. The index
    /// isn't stale if there is a list, and it lists just the rows; else it is stale. Where memory is missing, all is as
    /// it was.
    pub fn declare_with(
        &mut self,
        number: u8,
        key: KeyParts,
        text: ArrayVec<u8, 100>,
        list: Option<K>,
    ) -> Result<(), AllocError>
        requires key { IsKey self.old.table.structure key }
        requires text { IsKeyText text.items }
        requires form { IfSome list (λ k. K.form k
            ≡ record { key_length = key_length key (row_widths self.old.table.structure); key_text = text.items }) }
        requires unused { self.old.list ≡ [] }
        ensures table { self.new ≡ in_table self.old self.new.table }
        ensures ok { OnOk result (HasDeclared (IsSomeAnd list (λ k. K.pairs k ≡ index_list key self.old.table.rows))
            (record { number = number; parts = key; text = text.items; stale = true }) self.old.table self.new.table) }
        ensures err { OnErr result (self.new ≡ self.old) }
    {
        let slot = slot_with(&self.table, number, key, text, list);
        self.slots.push(slot)?;
        Ok(())
    }

    /// The table.
    pub fn table(&self) -> &Table
        ensures structure { result.now.structure ≡ self.now.table.structure }
        ensures rows { result.now.rows ≡ self.now.table.rows }
    {
        &self.table
    }

    /// Whether the table has an index of this number.
    pub fn has_index(&self, number: u8) -> bool
        ensures { result ≡ is_some (mark_at self.now.table.marks number) }
    {
        has_slot(&self.slots, number)
    }

    /// The list of the index of this number; none where it is stale, or there is no such index. It lists the rows under
    /// the declared key.
    pub fn keys(&self, number: u8) -> Option<&K>
        ensures fresh { is_some result ≡ is_fresh (mark_at self.now.table.marks number) }
        ensures exact { IfSome result (λ keys. K.pairs keys.now
            ≡ index_list (parts_in (mark_at self.now.table.marks number)) self.now.table.rows) }
        ensures form { IfSome result (λ keys. K.form keys.now
            ≡ form_in self.now.table.structure (mark_at self.now.table.marks number)) }
    {
        keys_at(&self.table, &self.slots, number)
    }

    /// The list of an open index, by its place among the open ones, counted from 0; none where fewer are open. It is
    /// never stale, and lists the rows.
    pub fn open_keys(&self, k: usize) -> Option<&K>
        ensures { MatchOption (slice_get self.now.list k) (result ≡ None)
            (λ n. IsSomeAnd result (λ keys. K.pairs keys.now
            ≡ index_list (parts_in (mark_at self.now.table.marks n)) self.now.table.rows)) }
    {
        match self.list.get(k) {
            Some(number) => self.keys(*number),
            None => None,
        }
    }

    /// No open index is marked stale.
    pub fn no_open_index_is_stale(&self)
        ensures { All (λ n. is_fresh (mark_at self.now.table.marks n) ≡ true) self.now.list }
    {
        let _order = self.order;
    }

    /// The index of the order, none for record order.
    fn order_index(&self) -> Option<u8>
        ensures value { result ≡ order_index self.now.order self.now.list }
        ensures fresh { IsOrder result self.now.table }
    {
        if self.order == 0 {
            return None;
        }
        Some(self.list[usize::from(self.order) - 1])
    }

    /// Sets the order: 0 is record order, 1 that of the first open index.
    pub fn set_order(&mut self, order: u8)
        requires { order ≤ length self.old.list }
        ensures { self.new ≡ reordered order self.old }
    {
        self.order = order;
    }

    /// Goes where a move led, and tells its cost.
    fn land(&mut self, landed: Landed) -> u64
        ensures cost { result ≡ landed.cost }
        ensures there { self.new ≡ record {
          table = self.old.table;
          list = self.old.list;
          order = self.old.order;
          pointer = landed.row;
          bof = landed.bof;
          found = landed.found;
        } }
    {
        self.pointer = landed.row;
        self.bof = landed.bof;
        self.found = landed.found;
        landed.cost
    }

    /// Goes where a move led, and tells its cost; a move that cost too much changes nothing.
    fn settle(&mut self, moved: Result<Landed, Spent>) -> Result<u64, Spent>
        ensures moves { (landing : Landing) (budget : ℕ) → IsMove landing budget moved
            → IsMoved (landed_at self.old) self.old self.new landing budget result }
        ensures table { self.new.table ≡ self.old.table }
    {
        match moved {
            Ok(landed) => Ok(self.land(landed)),
            Err(spent) => Err(spent),
        }
    }

    /// TOP, BOTTOM or SKIP, and what it cost. Where the cost is above the budget nothing changes.
    pub fn make_move<F: Fn(&Row<'_>) -> bool>(
        &mut self,
        asked: RowMove,
        see: F,
        budget: u64,
    ) -> Result<u64, Spent>
        requires { MayAskRows F.pre see self.old.table.structure }
        ensures moves { (shown : ℕ → Bool)
            → ShowsRows (FnReturnsAt F.Fn) see self.old.table.structure self.old.table.rows shown
            → IsMoved (landed_at self.old) self.old self.new (landing_of shown asked
            (pair_at (order_index self.old.order self.old.list) self.old.table self.old.pointer)
            (order_pairs (order_index self.old.order self.old.list) self.old.table)) budget result }
        ensures few { length self.new.table.rows ≤ length self.old.table.rows }
    {
        let order = self.order_index();
        let moved = trying::make_move(
            &self.table,
            &mut self.slots,
            order,
            self.pointer,
            asked,
            &see,
            budget,
        );
        self.settle(moved)
    }

    /// SEEK in the index of the order: the first shown row whose key matches, or the end of file; and what it cost.
    /// Where the cost is above the budget nothing changes.
    pub fn seek<F: Fn(&Row<'_>) -> bool>(
        &mut self,
        text: &[u8],
        exact: bool,
        see: F,
        budget: u64,
    ) -> Result<u64, Spent>
        requires callable { MayAskRows F.pre see self.old.table.structure }
        requires order { 1 ≤ self.old.order }
        ensures moves { (shown : ℕ → Bool)
            → ShowsRows (FnReturnsAt F.Fn) see self.old.table.structure self.old.table.rows shown
            → IsMoved (landed_at self.old) self.old self.new (sought shown exact text.now
            (order_pairs (order_index self.old.order self.old.list) self.old.table)) budget result }
        ensures few { length self.new.table.rows ≤ length self.old.table.rows }
    {
        let number = self.key_index();
        let moved = trying::seek(
            &self.table,
            &mut self.slots,
            number,
            text,
            exact,
            &see,
            budget,
        );
        self.settle(moved)
    }

    /// The index of an order that isn't record order.
    fn key_index(&self) -> u8
        requires { 1 ≤ self.now.order }
        ensures value { Some result ≡ order_index self.now.order self.now.list }
        ensures fresh { IsOrder (Some result) self.now.table }
    {
        self.list[usize::from(self.order) - 1]
    }

    /// APPEND: adds a blank row, and points to it. Where there are as many rows as the limit, or memory is missing,
    /// nothing changes.
    pub fn append(&mut self, limit: u32) -> Result<(), AppendError>
        requires { limit ≤ 1000000 }
        ensures ok { OnOk result (self.new ≡ with_blank self.old) }
        ensures err { OnErr result (self.new ≡ self.old) }
        ensures full { (result ≡ Err AppendError.Full) ↔ (limit ≤ length self.old.table.rows) }
    {
        let count = self.reccount();
        if count >= limit {
            return Err(AppendError::Full);
        }
        match changes::append(&mut self.table, &mut self.slots, self.list.as_slice()) {
            Ok(()) => {
                self.pointer = Some(count + 1);
                self.bof = false;
                self.found = false;
                Ok(())
            }
            Err(_) => Err(AppendError::NoMemory),
        }
    }

    /// The place of the record that is pointed to, counted from 0, none at the end of file.
    fn place(&self) -> Option<usize>
        ensures value { result ≡ place_in (length self.now.table.rows) self.now.pointer }
        ensures there { IfSome result (λ r. r < length self.now.table.rows) }
    {
        match self.pointer {
            Some(n) => {
                if n >= 1 && n <= self.reccount() {
                    return Some(n as usize - 1);
                }
                None
            }
            None => None,
        }
    }

    /// REPLACE: writes a value of the field's kind into field `f`, counted from 0, of the record that is pointed to; at
    /// the end of file nothing changes. The pointer and the answers stay. Where memory is missing nothing changes.
    pub fn replace(&mut self, f: usize, from: &Lent<'_>) -> Result<(), AllocError>
        requires field { f < length self.old.table.structure.fields }
        requires kind { kind_of from.now ≡ kind_for (letter_at self.old.table.structure f) }
        ensures ok { OnOk result (self.new ≡ replaced_here f from.now self.old) }
        ensures err { OnErr result (self.new ≡ self.old) }
    {
        let Some(r) = self.place() else {
            return Ok(());
        };
        let list = self.list.as_slice();
        changes::replace(&mut self.table, &mut self.slots, list, r, f, from)
    }

    /// DELETE and RECALL: marks the record that is pointed to, or takes its mark away; at the end of file nothing
    /// changes. The pointer and the answers stay.
    pub fn set_mark(&mut self, marked: bool)
        ensures { self.new ≡ remarked_here marked self.old }
    {
        index_lists();
        if let Some(r) = self.place() {
            self.table.set_mark(r, marked);
        }
    }

    /// GO: to the record of a number, or to the end of file where there is none. It meets no row.
    pub fn go(&mut self, number: Option<u32>)
        ensures { self.new ≡ gone_to self.old (within (length self.old.table.rows) number) }
    {
        let count = self.reccount();
        self.pointer = record_within(count, number);
        self.bof = false;
        self.found = false;
    }

    /// What EOF() answers.
    pub fn eof(&self) -> bool
        ensures { result ≡ is_none self.now.pointer }
    {
        self.pointer.is_none()
    }

    /// What BOF() answers.
    pub fn bof(&self) -> bool
        ensures { result ≡ self.now.bof }
    {
        self.bof
    }

    /// What FOUND() answers.
    pub fn found(&self) -> bool
        ensures { result ≡ self.now.found }
    {
        self.found
    }

    /// The order: 0 is record order, 1 that of the first open index.
    pub fn order(&self) -> u8
        ensures value { result ≡ self.now.order }
        ensures within { result ≤ length self.now.list }
    {
        self.order
    }

    /// The numbers of the open indexes, at most seven.
    pub fn list(&self) -> &[u8]
        ensures value { result.now ≡ self.now.list }
        ensures few { length self.now.list ≤ 7 }
    {
        self.list.as_slice()
    }

    /// DELETED(): whether the record that is pointed to is marked; false at the end of file.
    pub fn deleted(&self) -> bool
        ensures { result ≡ deleted_of self.now }
    {
        match self.place() {
            Some(r) => self.table.mark(r),
            None => false,
        }
    }

    /// The value of field `f`, counted from 0, of the record that is pointed to, lent from there; at the end of file
    /// that of a field of blanks.
    pub fn field(&self, f: usize) -> Lent<'_>
        requires { f < length self.now.table.structure.fields }
        ensures { result ≡ field_of f self.entry.now }
    {
        match self.place() {
            Some(r) => self.table.lent_at(r, f),
            None => blank(&self.table, f),
        }
    }

    /// RECCOUNT(), at most 1,000,000.
    pub fn reccount(&self) -> u32
        ensures count { result ≡ length self.now.table.rows }
        ensures few { length self.now.table.rows ≤ 1000000 }
    {
        self.table.rows() as u32
    }

    /// RECNO(): at the end of file the count plus 1.
    pub fn recno(&self) -> u32
        ensures { result ≡ unwrap_or self.now.pointer (length self.now.table.rows + 1) }
    {
        match self.pointer {
            Some(number) => number,
            None => self.reccount() + 1,
        }
    }

    /// Goes where the move at the end of a change led, and tells what the change cost; a change that was refused
    /// changes nothing.
    fn finish(&mut self, ended: Result<Landed, Refused>) -> Result<u64, Refused>
        ensures ends { (landing : Landing) (budget : ℕ) → EndsWithMove landing budget ended
            → IsEnded (landed_at self.old) self.old self.new landing budget result }
        ensures same { is_ok result ≡ is_ok ended }
        ensures table { self.new.table ≡ self.old.table }
    {
        match ended {
            Ok(landed) => Ok(self.land(landed)),
            Err(refused) => Err(refused),
        }
    }

    /// PACK: removes the marked rows, and ends with TOP, for which the test is asked of the rows that are kept, as they
    /// are numbered then. Where it is refused nothing changes.
    pub fn pack<F: Fn(&Row<'_>) -> bool>(
        &mut self,
        alloc: Global,
        see: F,
        budget: u64,
    ) -> Result<u64, Refused>
        requires { MayAskRows F.pre see self.old.table.structure }
        ensures ends { (shown : ℕ → Bool)
            → ShowsRows (FnReturnsAt F.Fn) see self.old.table.structure (unmarked self.old.table.rows) shown
            → IsEnded (landed_at (in_table self.old (packed self.old.list self.old.table))) self.old self.new
            (at_higher_cost (length self.old.table.rows + length (unmarked self.old.table.rows) * length self.old.list)
            (end_of shown true (pairs_in_order (order_index self.old.order self.old.list) self.old.table.marks
            (unmarked self.old.table.rows)))) budget result }
        ensures few { length self.new.table.rows ≤ length self.old.table.rows }
    {
        let order = self.order_index();
        let ended = closing::pack(
            alloc,
            &mut self.table,
            &mut self.slots,
            self.list.as_slice(),
            order,
            &see,
            budget,
        );
        self.finish(ended)
    }

    /// ZAP: removes every row; TOP then comes to the end of file. Where it is refused nothing changes.
    pub fn zap(&mut self, alloc: Global, budget: u64) -> Result<u64, Refused>
        ensures ends { (shown : ℕ → Bool)
            → IsEnded (landed_at (in_table self.old (emptied self.old.list self.old.table))) self.old self.new
            (end_of shown true []) budget result }
        ensures few { length self.new.table.rows ≤ length self.old.table.rows }
    {
        if budget == 0 {
            return Err(Refused::Spent);
        }
        match changes::clear(
            alloc,
            &mut self.table,
            &mut self.slots,
            self.list.as_slice(),
        ) {
            Ok(()) => Ok(self.land(Landed {
                row: None,
                cost: 1,
                bof: true,
                found: false,
            })),
            Err(_) => Err(Refused::NoMemory),
        }
    }

    /// REINDEX: makes the open indexes anew, and ends with TOP. Where it is refused nothing changes.
    pub fn reindex<F: Fn(&Row<'_>) -> bool>(
        &mut self,
        alloc: Global,
        see: F,
        budget: u64,
    ) -> Result<u64, Refused>
        requires { MayAskRows F.pre see self.old.table.structure }
        ensures ends { (shown : ℕ → Bool)
            → ShowsRows (FnReturnsAt F.Fn) see self.old.table.structure self.old.table.rows shown
            → IsEnded (landed_at (in_table self.old (remade self.old.list self.old.table))) self.old self.new
            (at_higher_cost (length self.old.table.rows * length self.old.list)
            (end_of shown true (order_pairs (order_index self.old.order self.old.list) self.old.table))) budget result }
        ensures few { length self.new.table.rows ≤ length self.old.table.rows }
    {
        let order = self.order_index();
        let base = u64::from(self.reccount()) * self.list.len() as u64;
        let ended = make_and_top(
            alloc,
            &self.table,
            &mut self.slots,
            self.list.as_slice(),
            false,
            order,
            &see,
            base,
            budget,
        );
        self.finish(ended)
    }

    /// Takes the table out of use: it has no open index, no order and no record that is pointed to.
    pub fn close(&mut self)
        ensures { self.new ≡ closed self.old }
    {
        self.list = ArrayVec::new();
        self.order = 0;
        self.pointer = None;
        self.bof = false;
        self.found = false;
    }

    /// Opens indexes of the table in place of the open ones, makes the stale ones of them anew, and ends with TOP in
    /// the order of the first, or in record order where there is none. Where it is refused nothing changes.
    pub fn open<F: Fn(&Row<'_>) -> bool>(
        &mut self,
        alloc: Global,
        list: &[u8],
        see: F,
        budget: u64,
    ) -> Result<u64, Refused>
        requires callable { MayAskRows F.pre see self.old.table.structure }
        requires few { length list.now ≤ 7 }
        requires declared { All (λ n. is_some (mark_at self.old.table.marks n) ≡ true) list.now }
        ensures ends { (shown : ℕ → Bool)
            → ShowsRows (FnReturnsAt F.Fn) see self.old.table.structure self.old.table.rows shown
            → IsEnded (landed_at (opened list.now self.old)) self.old self.new
            (at_higher_cost (length self.old.table.rows * count_stale list.now self.old.table.marks)
            (end_of shown true (order_pairs (slice_get list.now 0) self.old.table))) budget result }
        ensures few { length self.new.table.rows ≤ length self.old.table.rows }
    {
        let base = u64::from(self.reccount()) * stale_in(&self.slots, list) as u64;
        self.open_made(alloc, list, true, see, base, budget)
    }

    /// INDEX ON: makes one index anew, whether it is stale or not, which alone is open then and gives the order, and
    /// ends with TOP. Where it is refused nothing changes.
    pub fn index_on<F: Fn(&Row<'_>) -> bool>(
        &mut self,
        alloc: Global,
        number: u8,
        see: F,
        budget: u64,
    ) -> Result<u64, Refused>
        requires callable { MayAskRows F.pre see self.old.table.structure }
        requires declared { is_some (mark_at self.old.table.marks number) ≡ true }
        ensures ends { (shown : ℕ → Bool)
            → ShowsRows (FnReturnsAt F.Fn) see self.old.table.structure self.old.table.rows shown
            → IsEnded (landed_at (opened (number ∷ []) self.old)) self.old self.new
            (at_higher_cost (length self.old.table.rows)
            (end_of shown true (order_pairs (Some number) self.old.table))) budget result }
        ensures few { length self.new.table.rows ≤ length self.old.table.rows }
    {
        let base = u64::from(self.reccount());
        self.open_made(alloc, &[number], false, see, base, budget)
    }

    /// Makes indexes of the table anew, or those of them that are stale, opens them in place of the open ones, and ends
    /// with TOP in the order of the first, at a cost that is higher by a base. Where it is refused nothing changes.
    fn open_made<F: Fn(&Row<'_>) -> bool>(
        &mut self,
        alloc: Global,
        list: &[u8],
        only_stale: bool,
        see: F,
        base: u64,
        budget: u64,
    ) -> Result<u64, Refused>
        requires callable { MayAskRows F.pre see self.old.table.structure }
        requires few { length list.now ≤ 7 }
        requires declared { All (λ n. is_some (mark_at self.old.table.marks n) ≡ true) list.now }
        requires base { base ≤ 1000000000 }
        // Where the list of the order isn't there, the base pays for passes over the rows.
        requires paid { ¬ IsOrder (slice_get list.now 0) self.old.table → length self.old.table.rows ≤ base }
        ensures ends { (shown : ℕ → Bool)
            → ShowsRows (FnReturnsAt F.Fn) see self.old.table.structure self.old.table.rows shown
            → IsEnded (landed_at (opened list.now self.old)) self.old self.new
            (at_higher_cost base (end_of shown true (order_pairs (slice_get list.now 0) self.old.table)))
            budget result }
        ensures few { length self.new.table.rows ≤ length self.old.table.rows }
    {
        let order = first_index(list);
        match make_and_top(
            alloc,
            &self.table,
            &mut self.slots,
            list,
            only_stale,
            order,
            &see,
            base,
            budget,
        ) {
            Ok(landed) => {
                self.list = held(list);
                self.order = order_of(list);
                Ok(self.land(landed))
            }
            Err(refused) => Err(refused),
        }
    }
}

/// The value of field `f`, counted from 0, of a row of blanks.
fn blank(table: &Table, f: usize) -> Lent<'_>
    requires { f < length table.now.structure.fields }
    ensures { result ≡ value_by (letter_at table.entry.now.structure f) (decimals_at table.entry.now.structure f)
        (slice_index_or (blank_row (row_widths table.entry.now.structure)).texts f []) }
{
    let field = &table.structure().fields()[f];
    lent(
        field.letter,
        field.decimals,
        &BLANKS[..usize::from(field.width)],
    )
}

/// The first of some indexes.
fn first_index(list: &[u8]) -> Option<u8>
    ensures { result ≡ slice_get list.now 0 }
{
    list.first().copied()
}

/// The order of indexes that are opened: that of the first, or record order where there is none.
fn order_of(list: &[u8]) -> u8
    ensures value { result ≡ first_order list.now }
    ensures within { result ≤ length list.now }
{
    match list {
        [] => 0,
        [_, ..] => 1,
    }
}

/// At most seven numbers, held in place.
fn held(list: &[u8]) -> ArrayVec<u8, 7>
    requires { length list.now ≤ 7 }
    ensures { result.items ≡ list.now }
{
    let mut copy = ArrayVec::new();
    copy.try_extend_from_slice(list).unwrap();
    copy
}
