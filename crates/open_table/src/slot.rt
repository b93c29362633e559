//! A declared index of a table.

ghost use Rattle.std.specs.Prelude.{◌≡◌, ℕ, ◌+◌, ◌<◌, ◌≤◌, ◌^◌, ◌-◌, ◌↔◌, Bool, false, None, is_none, option_map};
ghost use Rattle.std.specs.Prelude.{is_some, IfSome, OnOk, IsSomeAnd, IsTrue, Contains, length};
ghost use Rattle.std.specs.Prelude.{slice_index};
ghost use Rattle.key_lists.specs.KeyForm.{KeyForm, IsKeyText};
ghost use Rattle.dbf_file.specs.Tables.{row_widths};
ghost use Rattle.dbf_file.specs.Rows.{row_at, with_text};
ghost use Rattle.shape.specs.Keys.{IsKey, key_of, key_length};
ghost use Rattle.row_keys.specs.Lists.{index_list, list_by, row_pair, kept_rows, IsExact, IsIndexOf, IsAsBefore};
ghost use Rattle.row_keys.specs.Lists.{HasAdded, HasFollowed};
ghost use Rattle.row_moves.specs.Orders.{MayTry, Sees};
ghost use Rattle.row_moves.specs.Moves.{IsMove, landing_of, sought};
ghost use Rattle.open_table.specs.Slots.{IsSlot, GoesBy, HasRoomForPair, PutsBy, Prepares, committed, discarded};
ghost use Rattle.open_table.specs.Slots.{left_if_open};
ghost use Rattle.open_table.specs.Slots.{is_wanted as is_wanted_of};

use arrayvec::ArrayVec;
use dbf_file::Table;
use key_lists::{Entry, KeyList};
use row_keys::exact::lists_rows;
use row_keys::{Kept, add_row, build_of, follow};
use row_moves::{Landed, RowMove, Spent, make_move, seek};
use shape::{KeyParts, is_among};
use std::alloc::{AllocError, Global};
use std::marker::Model;

/// A declared index of a table: how its keys are made, and its list unless that is stale.
#[derive(Drop)]
pub(crate) struct Slot<K: KeyList> {
    number: u8,
    key: KeyParts,
    text: ArrayVec<u8, 100>,
    keys: Option<K>,
    fresh: Option<K>,
}

impl<K: KeyList> Model for Slot<K> {
    ghost use Rattle.std.specs.Prelude.{option_map};
    ghost use Rattle.row_keys.specs.Lists.{list_by};
    ghost use Rattle.open_table.specs.Slots.{SlotState};

    ghost Value = { SlotState };

    ghost view = { λ s. record {
      number = s.number;
      parts = s.key;
      text = s.text.items;
      index = option_map (list_by K.pairs K.spare K.form) s.keys;
      fresh = option_map (list_by K.pairs K.spare K.form) s.fresh;
    } };
}

/// A list of the key's length, given up where it doesn't list just the rows.
fn exact_list<K: KeyList>(table: &Table, key: &KeyParts, list: Option<K>) -> Option<K>
    requires few { length table.now.rows ≤ 1000000 }
    requires key { IsKey table.now.structure key.now }
    ensures exact { IsTrue (is_some result) ↔ IsSomeAnd list (λ k. K.pairs k ≡ index_list key.now table.now.rows) }
    ensures pairs { IfSome result (λ k. K.pairs k ≡ index_list key.now table.now.rows) }
    ensures form { (form : KeyForm) → IfSome list (λ k. K.form k ≡ form) → IfSome result (λ k. K.form k ≡ form) }
{
    match list {
        Some(keys) => {
            if lists_rows(table, key, &keys) {
                return Some(keys);
            }
            None
        }
        None => None,
    }
}

/// A declared index with a list, or none; the list is given up where it doesn't list just the rows.
pub(crate) fn slot_with<K: KeyList>(
    table: &Table,
    number: u8,
    key: KeyParts,
    text: ArrayVec<u8, 100>,
    list: Option<K>,
) -> Slot<K>
    requires few { length table.now.rows ≤ 1000000 }
    requires key { IsKey table.now.structure key }
    requires key_text { IsKeyText text.items }
    requires form { IfSome list (λ k. K.form k
        ≡ record { key_length = key_length key (row_widths table.now.structure); key_text = text.items }) }
    ensures number { result.number ≡ number }
    ensures parts { result.parts ≡ key }
    ensures text { result.text ≡ text.items }
    ensures sound { IsSlot table.now.structure table.now.rows result }
    ensures exact { (is_none result.index ≡ false) ↔ IsSomeAnd list (λ k. K.pairs k ≡ index_list key table.now.rows) }
{
    match exact_list(table, &key, list) {
        Some(keys) => Slot::new(number, key, text, Some(keys)),
        None => Slot::new(number, key, text, None),
    }
}

/// The key of a record, counted from 1, with its number. Where there is no such record the key is empty.
#[tactic(auto, using(crate::proofs::TryingLemmas::no_record))]
fn entry_at(key: &KeyParts, table: &Table, number: u32) -> Entry
    requires { IsKey table.now.structure key.now }
    ensures { result ≡ (key_of key.now (row_at table.now.rows (number - 1)).texts, number) }
{
    let r = (number as usize).saturating_sub(1);
    if r >= table.rows() {
        return Entry::new(&[], number);
    }
    let text = key.row_key(table, r);
    Entry::new(text.as_slice(), number)
}

impl<K: KeyList> Slot<K> {
    /// A declared index with its list, or none where that is stale.
    fn new(number: u8, key: KeyParts, text: ArrayVec<u8, 100>, keys: Option<K>) -> Self
        ensures { result ≡ record {
          number = number;
          parts = key;
          text = text.items;
          index = option_map (list_by K.pairs K.spare K.form) keys;
          fresh = None;
        } }
    {
        Slot {
            number,
            key,
            text,
            keys,
            fresh: None,
        }
    }

    /// The index's number.
    pub(crate) fn number(&self) -> u8
        ensures { result ≡ self.now.number }
    {
        self.number
    }

    /// The list, unless it is stale.
    pub(crate) fn keys(&self) -> Option<&K>
        ensures fresh { is_some result ≡ is_some self.now.index }
        ensures same { IfSome result (λ keys. IfSome self.now.index (λ x. K.pairs keys.now ≡ x.pairs)) }
        ensures form { IfSome result (λ keys. IfSome self.now.index (λ x. K.form keys.now ≡ x.form)) }
    {
        match &self.keys {
            Some(keys) => Some(keys),
            None => None,
        }
    }

    /// How its keys are made.
    pub(crate) fn key_parts(&self) -> KeyParts
        ensures { result ≡ self.now.parts }
    {
        self.key.copied()
    }

    /// Whether its list is stale.
    pub(crate) fn is_stale(&self) -> bool
        ensures { result ≡ is_none self.now.index }
    {
        match &self.keys {
            Some(_) => false,
            None => true,
        }
    }

    /// Makes room for one more pair, if the index is open.
    pub(crate) fn reserve(&mut self, list: &[u8]) -> Result<(), AllocError>
        requires { IfSome self.old.index (λ x. length x.pairs + 1 < 2 ^ 32) }
        ensures same { GoesBy (λ parts. IsAsBefore) self.old self.new }
        ensures ok { OnOk result (HasRoomForPair list.now self.new) }
    {
        if !is_among(list, self.number) {
            return Ok(());
        }
        match &mut self.keys {
            Some(keys) => keys.reserve_one(),
            None => Ok(()),
        }
    }

    /// Gives up the list, unless the index is open.
    pub(crate) fn leave(&mut self, list: &[u8])
        ensures { self.new ≡ left_if_open list.now self.old }
    {
        if !is_among(list, self.number) {
            self.keys = None;
        }
    }

    /// Puts the pair of row `r`, counted from 0, into the list.
    pub(crate) fn add_row(&mut self, table: &Table, r: usize)
        requires row { r < length table.now.rows }
        requires few { r < 1000000 }
        requires index { IfSome self.old.index (IsIndexOf table.now.structure self.old.parts) }
        requires reserved { IfSome self.old.index (λ x. 0 < x.spare) }
        requires absent { IfSome self.old.index (λ x. ¬ Contains x.pairs (row_pair self.old.parts table.now.rows r)) }
        ensures { GoesBy (HasAdded table.now.rows r) self.old self.new }
    {
        match &mut self.keys {
            Some(keys) => add_row(keys, &self.key, table, r),
            None => {}
        }
    }

    /// Has the list follow a change of row `r`: field `f` of it, both counted from 0, had this text before.
    pub(crate) fn follow(&mut self, table: &Table, r: usize, f: usize, before: &[u8])
        requires row { r < length table.now.rows }
        requires few { r < 1000000 }
        requires field { f < length table.now.structure.fields }
        requires width { length before.now ≡ slice_index (row_widths table.now.structure) f }
        requires exact { IfSome self.old.index
            (IsExact table.now.structure (with_text table.now.rows r f before.now) self.old.parts) }
        requires reserved { IfSome self.old.index (λ x. 0 < x.spare) }
        ensures { GoesBy (HasFollowed table.now.structure table.now.rows) self.old self.new }
    {
        match &mut self.keys {
            Some(keys) => follow(keys, &self.key, table, r, f, before),
            None => {}
        }
    }

    /// A move in the order of the list, which isn't stale, from a record or the end of file.
    pub(crate) fn make_move<F: Fn(u32) -> bool>(
        &mut self,
        table: &Table,
        pointer: Option<u32>,
        asked: RowMove,
        see: &F,
        budget: u64,
    ) -> Result<Landed, Spent>
        requires exact { IsSlot table.now.structure table.now.rows self.old }
        requires fresh { is_none self.old.index ≡ false }
        requires callable { MayTry F.pre see.now (index_list self.old.parts table.now.rows) }
        ensures lands { (shown : ℕ → Bool) → Sees F.post see.now (index_list self.old.parts table.now.rows) shown
            → IsMove (landing_of shown asked
            (option_map (λ n. (key_of self.old.parts (row_at table.now.rows (n - 1)).texts, n)) pointer)
            (index_list self.old.parts table.now.rows)) budget result }
        ensures same { self.new ≡ self.old }
    {
        let Some(keys) = &mut self.keys else {
            unreachable!()
        };
        let from = pointer.map(|number| entry_at(&self.key, table, number));
        make_move(keys, from, asked, see, budget)
    }

    /// SEEK in the list, which isn't stale.
    pub(crate) fn seek<F: Fn(u32) -> bool>(
        &mut self,
        table: &Table,
        text: &[u8],
        exact: bool,
        see: &F,
        budget: u64,
    ) -> Result<Landed, Spent>
        requires exact { IsSlot table.now.structure table.now.rows self.old }
        requires fresh { is_none self.old.index ≡ false }
        requires callable { MayTry F.pre see.now (index_list self.old.parts table.now.rows) }
        ensures lands { (shown : ℕ → Bool) → Sees F.post see.now (index_list self.old.parts table.now.rows) shown
            → IsMove (sought shown exact text.now (index_list self.old.parts table.now.rows)) budget result }
        ensures same { self.new ≡ self.old }
    {
        let Some(keys) = &mut self.keys else {
            unreachable!()
        };
        seek(keys, text, exact, see, budget)
    }

    /// Whether the index is one of these, and, if only those are wanted, is stale.
    fn is_wanted(&self, list: &[u8], only_stale: bool) -> bool
        ensures { result ≡ is_wanted_of list.now only_stale self.now }
    {
        is_among(list, self.number) && (self.is_stale() || !only_stale)
    }

    /// Makes a list anew of the rows that are kept, and puts it by, if it is wanted.
    pub(crate) fn prepare(
        &mut self,
        alloc: Global,
        table: &Table,
        list: &[u8],
        only_stale: bool,
        kept: Kept,
    ) -> Result<(), AllocError>
        requires few { length table.now.rows ≤ 1000000 }
        requires key { IsKey table.now.structure self.old.parts }
        requires key_text { IsKeyText self.old.text }
        requires idle { self.old.fresh ≡ None }
        ensures puts { PutsBy self.old self.new }
        ensures ok { OnOk result (Prepares table.now.structure
            (kept_rows kept table.now.rows) list.now only_stale self.old self.new) }
    {
        if !self.is_wanted(list, only_stale) {
            return Ok(());
        }
        let keys = build_of(alloc, table, &self.key, self.text.as_slice(), kept)?;
        self.fresh = Some(keys);
        Ok(())
    }

    /// Puts what was put by in the list's place. Where nothing was, the list stays, or is given up.
    pub(crate) fn commit(&mut self, gives_up: bool)
        ensures { self.new ≡ committed gives_up self.old }
    {
        match self.fresh.take() {
            Some(keys) => self.keys = Some(keys),
            None => {
                if gives_up {
                    self.keys = None;
                }
            }
        }
    }

    /// Gives up what was put by.
    pub(crate) fn discard(&mut self)
        ensures { self.new ≡ discarded self.old }
    {
        self.fresh = None;
    }
}
