//! A list of keys in a sorted vector.

ghost use Rattle.std.specs.Prelude.{◌≡◌, ◌+◌, ◌-◌, ◌<◌, ◌≤◌, ◌↔◌, take, drop, reverse, insert, remove, length};
ghost use Rattle.std.specs.Prelude.{Contains, IsSome, IfSome, IfNone, true, false, IsTrue, vec_len};
ghost use Rattle.std.specs.Prelude.{vec_capacity};
ghost use Rattle.std.specs.Fn.{FnReturnsAt};
ghost use Rattle.key_lists.specs.Order.{Each, IsAscending, above, below, inserted, without, first, in_order};
ghost use Rattle.key_lists.specs.Order.{IsDistinct};
ghost use Rattle.key_lists.specs.Pairs.{Pair, is_before, pairs_from};
ghost use Rattle.key_lists.specs.KeyForm.{IsKeyList};

use crate::bytes::held;
use crate::{Entry, KeyList};
use arrayvec::ArrayVec;
use std::alloc::{AllocError, Global};
use std::marker::Model;

/// A list of keys in a sorted vector, searched by halving.
#[derive(Debug, Drop)]
pub struct SortedKeys {
    key_length: usize,
    key_text: ArrayVec<u8, 100>,
    entries: Vec<Entry>,
}

impl Model for SortedKeys {
    ghost use Rattle.std.specs.Prelude.{vec_len, vec_capacity, ◌-◌};
    ghost use Rattle.key_lists.specs.KeyForm.{IsKeyList};
    ghost use Rattle.key_lists.specs.SortedList.{SortedList};

    ghost Value = { SortedList };

    ghost view = { λ k. record {
      pairs = k.entries.items;
      spare = vec_capacity k.entries - vec_len k.entries;
      form = record { key_length = k.key_length; key_text = k.key_text.items };
    } };

    ghost invariant = { λ k. IsKeyList
        (record { key_length = k.key_length; key_text = k.key_text.items }) k.entries.items };
}

impl SortedKeys {
    /// All pairs, in order.
    pub fn pairs(&self) -> &[Entry]
        ensures value { result.now ≡ self.now.pairs }
        ensures sound { IsKeyList self.now.form self.now.pairs }
    {
        &self.entries
    }
}

impl KeyList for SortedKeys {
    ghost pairs = { λ k. k.pairs };

    ghost spare = { λ k. k.spare };

    ghost form = { λ k. k.form };

    fn rebuild(
        _alloc: Global,
        key_length: usize,
        key_text: &[u8],
        mut entries: Vec<Entry>,
    ) -> Result<Self, AllocError> {
        put_in_order(&mut entries);
        Ok(SortedKeys {
            key_length,
            key_text: held(key_text),
            entries,
        })
    }

    fn len(&self) -> usize {
        self.entries.len()
    }

    fn key_length(&self) -> usize {
        self.key_length
    }

    fn key_text(&self) -> &[u8] {
        self.key_text.as_slice()
    }

    fn reserve_one(&mut self) -> Result<(), AllocError> {
        self.entries.reserve(1)
    }

    fn insert(&mut self, key: &[u8], number: u32) {
        put_in(&mut self.entries, key, number);
    }

    fn remove(&mut self, key: &[u8], number: u32) -> bool {
        take_out(&mut self.entries, key, number)
    }

    fn all<F: Fn(&Entry) -> bool>(&self, test: &F) -> bool {
        all_hold(&self.entries, test)
    }

    fn first(&mut self) -> Option<Entry> {
        entry_at(&self.entries, 0)
    }

    fn last(&mut self) -> Option<Entry> {
        entry_before(&self.entries, self.entries.len())
    }

    fn first_from(&mut self, key: &[u8]) -> Option<Entry> {
        entry_at(&self.entries, place_from(&self.entries, key))
    }

    fn after(&mut self, key: &[u8], number: u32) -> Option<Entry> {
        entry_at(&self.entries, place_after(&self.entries, key, number))
    }

    fn before(&mut self, key: &[u8], number: u32) -> Option<Entry> {
        entry_before(&self.entries, place_of(&self.entries, key, number))
    }
}

/// Puts entries in order.
pub fn put_in_order(entries: &mut Vec<Entry>)
    requires { IsDistinct entries.old.items }
    ensures pairs { entries.new.items ≡ in_order is_before entries.old.items }
{
    entries.sort_unstable_by(|a, b| a.compare(b));
}

// Puts a key with a record number at its place, in room that is there.
fn put_in(entries: &mut Vec<Entry>, key: &[u8], number: u32)
    requires ordered { IsAscending is_before entries.old.items }
    requires short { length key.now ≤ 100 }
    requires room { vec_len entries.old < vec_capacity entries.old }
    ensures pairs { entries.new.items ≡ inserted is_before (key.now, number) entries.old.items }
    ensures len { vec_len entries.new ≡ vec_len entries.old + 1 }
    ensures capacity { vec_capacity entries.new ≡ vec_capacity entries.old }
{
    let at = place_of(entries, key, number);
    entries.insert(at, Entry::new(key, number)).unwrap();
}

// Takes a key with a record number out, and tells whether it was there.
fn take_out(entries: &mut Vec<Entry>, key: &[u8], number: u32) -> bool
    requires { IsAscending is_before entries.old.items }
    ensures found { IsTrue result ↔ Contains entries.old.items (key.now, number) }
    ensures pairs { entries.new.items ≡ without is_before (key.now, number) entries.old.items }
    ensures len { vec_len entries.new ≤ vec_len entries.old }
    ensures capacity { vec_capacity entries.new ≡ vec_capacity entries.old }
{
    let Some(at) = find(entries, key, number) else {
        return false;
    };
    entries.remove(at);
    true
}

// Whether a test holds of each entry.
fn all_hold<F: Fn(&Entry) -> bool>(entries: &[Entry], test: &F) -> bool
    requires { F.IsAlwaysCallable test.now }
    ensures all { IsTrue result → Each (λ p. FnReturnsAt F.Fn test.now p true) entries.now }
    ensures one { result ≡ false → (p : Pair) × Contains entries.now p × FnReturnsAt F.Fn test.now p false }
{
    let mut rest = entries;
    while let Some((entry, others)) = rest.split_first() {
        if !test(entry) {
            return false;
        }
        rest = others;
    }
    true
}

// The entry at a place, if there is one.
fn entry_at(entries: &[Entry], at: usize) -> Option<Entry>
    ensures { result ≡ first (drop at entries.now) }
{
    Some(entries.get(at)?.copied())
}

// The entry before a place, if there is one.
fn entry_before(entries: &[Entry], at: usize) -> Option<Entry>
    requires { at ≤ length entries.now }
    ensures { result ≡ first (reverse (take at entries.now)) }
{
    if at == 0 {
        return None;
    }
    Some(entries[at - 1].copied())
}

// How many of the entries come before a key with a record number.
fn place_of(entries: &[Entry], key: &[u8], number: u32) -> usize
    requires { IsAscending is_before entries.now }
    ensures bound { result ≤ length entries.now }
    ensures front { Each (λ p. is_before p (key.now, number) ≡ true) (take result entries.now) }
    ensures rest { Each (λ p. is_before p (key.now, number) ≡ false) (drop result entries.now) }
    ensures below { below is_before (key.now, number) entries.now ≡ reverse (take result entries.now) }
    ensures inserted { inserted is_before (key.now, number) entries.now ≡ insert entries.now result (key.now, number) }
{
    entries.partition_point(|entry| entry.is_before(key, number))
}

// How many of the entries are a key with a record number, or come before it.
fn place_after(entries: &[Entry], key: &[u8], number: u32) -> usize
    requires { IsAscending is_before entries.now }
    ensures bound { result ≤ length entries.now }
    ensures rest { above is_before (key.now, number) entries.now ≡ drop result entries.now }
{
    entries.partition_point(|entry| !entry.is_after(key, number))
}

// How many of the entries have a key that comes before a key.
fn place_from(entries: &[Entry], key: &[u8]) -> usize
    requires { IsAscending is_before entries.now }
    ensures bound { result ≤ length entries.now }
    ensures rest { pairs_from key.now entries.now ≡ drop result entries.now }
{
    entries.partition_point(|entry| entry.has_key_before(key))
}

// Where a key with a record number stands.
fn find(entries: &[Entry], key: &[u8], number: u32) -> Option<usize>
    requires { IsAscending is_before entries.now }
    ensures found { IsSome result ↔ Contains entries.now (key.now, number) }
    ensures bound { IfSome result (λ at. at < length entries.now) }
    ensures removed { IfSome result (λ at. without is_before (key.now, number) entries.now ≡ remove entries.now at) }
    ensures absent { IfNone result (without is_before (key.now, number) entries.now ≡ entries.now) }
{
    let at = place_of(entries, key, number);
    if at == entries.len() || entries[at].is_after(key, number) {
        return None;
    }
    Some(at)
}
