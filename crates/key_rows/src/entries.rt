//! Entries side by side in one row of bytes.

ghost use Rattle.std.specs.Prelude.{◌≡◌, ◌+◌, ◌*◌, ◌-◌, ◌^◌, ◌<◌, ◌≤◌, [], ◌∷◌, ◌++◌, ℕ, length, take, drop, insert};
ghost use Rattle.std.specs.Prelude.{remove, slice_index_or, slice_set, IfOk, OnOk, OnErr, true, false, IsTrue};
ghost use Rattle.std.specs.Prelude.{Contains};
ghost use Rattle.std.specs.Fn.{FnReturnsAt};
ghost use Rattle.std.specs.Vec.{vec_capacity, vec_len};
ghost use Rattle.std.specs.Ordering.{nat_cmp};
ghost use Rattle.std.specs.Cmp.Lexicographic.{slice_cmp};
ghost use Rattle.byteorder.specs.Endian.{little_bytes, little_number};
ghost use Rattle.key_lists.specs.Order.{Each};
ghost use Rattle.key_lists.specs.Rising.{IsRising, place_of, last_of};
ghost use Rattle.key_lists.specs.Pairs.{Pair, is_before, key_before};
ghost use Rattle.key_rows.specs.Flat.{HaveKeys, AreBytes};

use byteorder::{BigEndian, ByteOrder, LittleEndian};
use key_lists::Entry;
use std::alloc::{AllocError, Global};
use std::cmp::Ordering;
use std::marker::Model;

/// The bytes of a record number.
const NUMBER_SIZE: usize = 4;

/// Entries whose keys have one length, side by side in one row of bytes. Each is its key and the four bytes of its
/// record number. An empty row takes entries of any key length.
#[derive(Debug, Drop)]
pub struct Entries {
    key_length: usize,
    count: usize,
    bytes: Vec<u8>,
}

impl Model for Entries {
    ghost use Rattle.std.specs.Vec.{vec_capacity};
    ghost use Rattle.key_rows.specs.Flat.{FlatView, pairs_in, IsFlat};

    ghost Value = { FlatView };

    ghost view = { λ e. record { items = pairs_in e.key_length e.count e.bytes.items; room = vec_capacity e.bytes } };

    ghost invariant = { λ e. IsFlat e.key_length e.count e.bytes.items };
}

impl Entries {
    /// No entries, with room for so many bytes.
    pub fn with_room(alloc: Global, room: usize) -> Result<Entries, AllocError>
        ensures items { IfOk result (λ e. e.items ≡ []) }
        ensures room { IfOk result (λ e. room ≤ e.room) }
    {
        Ok(Entries {
            key_length: 0,
            count: 0,
            bytes: Vec::with_capacity(alloc, room)?,
        })
    }

    /// How many entries there are.
    pub fn len(&self) -> usize
        ensures { result ≡ length self.now.items }
    {
        self.count
    }

    /// The key of the entry at a place.
    pub fn key(&self, at: usize) -> &[u8]
        requires { at < length self.now.items }
        ensures value { (d : Pair) → result.now ≡ (slice_index_or self.now.items at d).0 }
        ensures bound { length result.now ≤ 100 }
    {
        part(
            &self.bytes,
            at * (self.key_length + NUMBER_SIZE),
            self.key_length,
        )
    }

    /// The record number of the entry at a place.
    pub fn number(&self, at: usize) -> u32
        requires { at < length self.now.items }
        ensures { (d : Pair) → result ≡ (slice_index_or self.now.items at d).1 }
    {
        let start = at * (self.key_length + NUMBER_SIZE);
        number_in(&self.bytes, start + self.key_length)
    }

    /// The entry at a place.
    pub fn get(&self, at: usize) -> Entry
        requires { at < length self.now.items }
        ensures { (d : Pair) → result ≡ slice_index_or self.now.items at d }
    {
        Entry::new(self.key(at), self.number(at))
    }

    /// Whether the entry at a place comes before a key with a number, which may be one more than a record's.
    #[tactic(auto, unfolding(key_lists::specs::Pairs::is_before))]
    pub fn is_below(&self, at: usize, key: &[u8], number: u64) -> bool
        requires { at < length self.now.items }
        ensures { (d : Pair) → result ≡ is_before (slice_index_or self.now.items at d) (key.now, number) }
    {
        match compare_keys(self.key(at), key) {
            Ordering::Less => true,
            Ordering::Equal => u64::from(self.number(at)) < number,
            Ordering::Greater => false,
        }
    }

    /// How many entries at the front stand before a key with a number.
    pub fn place(&self, key: &[u8], number: u64) -> usize
        requires { IsRising self.now.items }
        ensures within { result ≤ length self.now.items }
        ensures value { result ≡ place_of (key.now, number) self.now.items }
    {
        let mut low = 0;
        let mut high = self.len();
        while low < high {
            let middle = low + (high - low) / 2;
            if self.is_below(middle, key, number) {
                low = middle + 1;
            } else {
                high = middle;
            }
        }
        low
    }

    /// How many entries at the front stand before a pair.
    pub fn place_of_pair(&self, key: &[u8], number: u32) -> usize
        requires { IsRising self.now.items }
        ensures within { result ≤ length self.now.items }
        ensures value { result ≡ place_of (key.now, number) self.now.items }
    {
        self.place(key, u64::from(number))
    }

    /// How many entries at the front stand before another entry.
    pub fn place_for(&self, entry: &Entry) -> usize
        requires { IsRising self.now.items }
        ensures within { result ≤ length self.now.items }
        ensures value { result ≡ place_of entry.now self.now.items }
    {
        self.place_of_pair(entry.key(), entry.number())
    }

    /// Puts a key with a number at a place, in room that is there.
    pub fn put_pair(&mut self, at: usize, key: &[u8], number: u32)
        requires within { at ≤ length self.old.items }
        requires short { length key.now ≤ 100 }
        requires alike { HaveKeys (length key.now) self.old.items }
        requires room { (length self.old.items + 1) * (length key.now + 4) ≤ self.old.room }
        ensures items { self.new.items ≡ insert self.old.items at (key.now, number) }
        ensures room { self.old.room ≤ self.new.room }
    {
        self.key_length = key.len();
        let start = at * (self.key_length + NUMBER_SIZE);
        put_bytes(&mut self.bytes, start, key, number);
        self.count += 1;
    }

    /// Puts an entry at a place, in room that is there.
    pub fn put(&mut self, at: usize, entry: &Entry)
        requires within { at ≤ length self.old.items }
        requires alike { HaveKeys (length entry.now.0) self.old.items }
        requires room { (length self.old.items + 1) * (length entry.now.0 + 4) ≤ self.old.room }
        ensures items { self.new.items ≡ insert self.old.items at entry.now }
        ensures room { self.old.room ≤ self.new.room }
    {
        self.put_pair(at, entry.key(), entry.number());
    }

    /// Adds a key with a number at the end. Where memory is missing, the entries stay.
    pub fn add(&mut self, key: &[u8], number: u32) -> Result<(), AllocError>
        requires short { length key.now ≤ 100 }
        requires alike { HaveKeys (length key.now) self.old.items }
        ensures items { OnOk result (self.new.items ≡ self.old.items ++ (key.now, number) ∷ []) }
        ensures kept { OnErr result (self.new.items ≡ self.old.items) }
    {
        self.bytes.reserve(key.len() + NUMBER_SIZE)?;
        self.key_length = key.len();
        add_pair(&mut self.bytes, key, number);
        self.count += 1;
        Ok(())
    }

    /// Puts an entry at the end, in room that is there.
    pub fn push(&mut self, entry: &Entry)
        requires alike { HaveKeys (length entry.now.0) self.old.items }
        requires room { (length self.old.items + 1) * (length entry.now.0 + 4) ≤ self.old.room }
        ensures items { self.new.items ≡ self.old.items ++ entry.now ∷ [] }
        ensures room { self.old.room ≤ self.new.room }
    {
        let end = self.len();
        self.put(end, entry);
    }

    /// Takes out the entry at a place.
    pub fn remove(&mut self, at: usize)
        requires { at < length self.old.items }
        ensures items { self.new.items ≡ remove self.old.items at }
        ensures room { self.old.room ≤ self.new.room }
    {
        let size = self.key_length + NUMBER_SIZE;
        take_bytes(&mut self.bytes, at * size, size);
        self.count -= 1;
    }

    /// Takes out the first entry.
    pub fn take_first(&mut self) -> Entry
        requires { 0 < length self.old.items }
        ensures items { self.old.items ≡ result ∷ self.new.items }
        ensures room { self.old.room ≤ self.new.room }
    {
        let first = self.get(0);
        self.remove(0);
        first
    }

    /// Takes out the last entry.
    pub fn take_last(&mut self) -> Entry
        requires { 0 < length self.old.items }
        ensures items { self.old.items ≡ self.new.items ++ result ∷ [] }
        ensures room { self.old.room ≤ self.new.room }
    {
        let end = self.len() - 1;
        let last = self.get(end);
        self.truncate(end);
        last
    }

    /// Keeps so many entries at the front.
    pub fn truncate(&mut self, kept: usize)
        requires { kept ≤ length self.old.items }
        ensures items { self.new.items ≡ take kept self.old.items }
        ensures room { self.old.room ≤ self.new.room }
    {
        self.bytes.truncate(kept * (self.key_length + NUMBER_SIZE));
        self.count = kept;
    }

    /// Puts another entry in the place of one.
    pub fn set(&mut self, at: usize, entry: &Entry)
        requires within { at < length self.old.items }
        requires alike { HaveKeys (length entry.now.0) self.old.items }
        requires room { length self.old.items * (length entry.now.0 + 4) ≤ self.old.room }
        ensures items { self.new.items ≡ slice_set self.old.items at entry.now }
        ensures room { self.old.room ≤ self.new.room }
    {
        self.remove(at);
        self.put(at, entry);
    }

    /// Copies so many entries from a place on to the end of others, in room that is there.
    pub fn copy_part(&self, at: usize, size: usize, to: &mut Entries)
        requires within { at + size ≤ length self.now.items }
        requires alike { (k : ℕ) × HaveKeys k self.now.items × HaveKeys k to.old.items
            × ((length to.old.items + size) * (k + 4) ≤ to.old.room) }
        ensures items { to.new.items ≡ to.old.items ++ take size (drop at self.now.items) }
        ensures room { to.old.room ≤ to.new.room }
    {
        if size == 0 {
            return;
        }
        to.key_length = self.key_length;
        let one = self.key_length + NUMBER_SIZE;
        add_bytes(&mut to.bytes, part(&self.bytes, at * one, size * one));
        to.count += size;
    }

    /// Copies the entries from a place on to the end of others, in room that is there.
    pub fn copy_tail(&self, at: usize, to: &mut Entries)
        requires within { at ≤ length self.now.items }
        requires alike { (k : ℕ) × HaveKeys k self.now.items × HaveKeys k to.old.items
            × ((length to.old.items + (length self.now.items - at)) * (k + 4) ≤ to.old.room) }
        ensures items { to.new.items ≡ to.old.items ++ drop at self.now.items }
        ensures room { to.old.room ≤ to.new.room }
    {
        self.copy_part(at, self.len() - at, to);
    }

    /// Moves the entries from a place on to an empty row that has room.
    pub fn move_tail(&mut self, at: usize, to: &mut Entries)
        requires within { at ≤ length self.old.items }
        requires empty { to.old.items ≡ [] }
        requires room { (k : ℕ) × HaveKeys k self.old.items × ((length self.old.items - at) * (k + 4) ≤ to.old.room) }
        ensures kept { self.new.items ≡ take at self.old.items }
        ensures moved { to.new.items ≡ drop at self.old.items }
        ensures kept_room { self.old.room ≤ self.new.room }
        ensures room { to.old.room ≤ to.new.room }
    {
        self.copy_tail(at, to);
        self.truncate(at);
    }

    /// Copies all entries to the end of others that have room.
    pub fn copy_all(&self, to: &mut Entries)
        requires { (k : ℕ) × HaveKeys k self.now.items × HaveKeys k to.old.items
            × ((length to.old.items + length self.now.items) * (k + 4) ≤ to.old.room) }
        ensures items { to.new.items ≡ to.old.items ++ self.now.items }
        ensures room { to.old.room ≤ to.new.room }
    {
        self.copy_tail(0, to);
    }

    /// Whether a test holds of each entry. It is asked of the entries in order, up to the first of which it doesn't
    /// hold.
    pub fn all<F: Fn(&Entry) -> bool>(&self, test: &F) -> bool
        requires { F.IsAlwaysCallable test.now }
        ensures all { IsTrue result → Each (λ p. FnReturnsAt F.Fn test.now p true) self.now.items }
        ensures one { result ≡ false → (p : Pair) × Contains self.now.items p × FnReturnsAt F.Fn test.now p false }
    {
        for at in 0..self.len() {
            if !test(&self.get(at)) {
                return false;
            }
        }
        true
    }

    /// The last entry before a place, if there is one.
    pub fn before(&self, at: usize) -> Option<Entry>
        requires { at ≤ length self.now.items }
        ensures { result ≡ last_of (take at self.now.items) }
    {
        if at == 0 {
            return None;
        }
        Some(self.get(at - 1))
    }
}

// The same bytes, of which it is known that each is below 256.
fn known(bytes: &[u8]) -> &[u8]
    ensures same { result.now ≡ bytes.now }
    ensures bytes { AreBytes bytes.now }
{
    bytes
}

// How two keys stand to each other, where one has fewer than eight bytes. If their first four bytes differ, these
// decide as one number.
fn compare_short_keys(first: &[u8], second: &[u8]) -> Ordering
    ensures { result ≡ slice_cmp nat_cmp first.now second.now }
{
    if first.len() < 4 || second.len() < 4 {
        return first.cmp(second);
    }
    let front = BigEndian::read_u32(known(first));
    let other = BigEndian::read_u32(known(second));
    if front == other {
        return first.cmp(second);
    }
    front.cmp(&other)
}

// How two keys stand to each other. If their first eight bytes differ, these decide as one number.
fn compare_keys(first: &[u8], second: &[u8]) -> Ordering
    ensures { result ≡ slice_cmp nat_cmp first.now second.now }
{
    if first.len() < 8 || second.len() < 8 {
        return compare_short_keys(first, second);
    }
    let front = BigEndian::read_u64(known(first));
    let other = BigEndian::read_u64(known(second));
    if front == other {
        return first.cmp(second);
    }
    front.cmp(&other)
}

/// Whether a key comes before another.
#[tactic(auto, unfolding(key_lists::specs::Pairs::key_before))]
pub fn is_key_before(key: &[u8], other: &[u8]) -> bool
    ensures { result ≡ key_before key.now other.now }
{
    compare_keys(key, other).is_lt()
}

// So many bytes from a place on.
fn part(bytes: &[u8], start: usize, size: usize) -> &[u8]
    requires { start + size ≤ length bytes.now }
    ensures { result.now ≡ take size (drop start bytes.now) }
{
    &bytes[start..start + size]
}

// All bytes from a place on.
fn rest(bytes: &[u8], start: usize) -> &[u8]
    requires { start ≤ length bytes.now }
    ensures { result.now ≡ drop start bytes.now }
{
    bytes.split_at(start).1
}

// The number in the four bytes from a place on.
fn number_in(bytes: &[u8], start: usize) -> u32
    requires { start + 4 ≤ length bytes.now }
    ensures { result ≡ little_number 4 (drop start bytes.now) }
{
    LittleEndian::read_u32(rest(bytes, start))
}

// Adds bytes at the end, in room that is there.
fn add_bytes(bytes: &mut Vec<u8>, more: &[u8])
    requires { vec_len bytes.old + length more.now ≤ vec_capacity bytes.old }
    ensures bytes { bytes.new.items ≡ bytes.old.items ++ more.now }
    ensures capacity { vec_capacity bytes.old ≤ vec_capacity bytes.new }
{
    let Ok(()) = bytes.extend_from_slice(more) else {
        unreachable!()
    };
}

// Adds a key and a number at the end, in room that is there.
fn add_pair(bytes: &mut Vec<u8>, key: &[u8], number: u32)
    requires { vec_len bytes.old + (length key.now + 4) ≤ vec_capacity bytes.old }
    ensures bytes { bytes.new.items ≡ bytes.old.items ++ (key.now ++ little_bytes 4 number) }
    ensures capacity { vec_capacity bytes.old ≤ vec_capacity bytes.new }
    ensures fits { number < 2 ^ 32 }
{
    let mut last = [0; 4];
    LittleEndian::write_u32(&mut last, number);
    add_bytes(bytes, key);
    add_bytes(bytes, &last);
}

// Moves the bytes between two places up by so many, over as many that stand behind them.
fn move_up(bytes: &mut Vec<u8>, start: usize, end: usize, size: usize)
    requires order { start ≤ end }
    requires behind { vec_len bytes.old ≡ end + size }
    ensures bytes { bytes.new.items ≡ take (start + size) bytes.old.items
        ++ take (end - start) (drop start bytes.old.items) }
    ensures len { vec_len bytes.new ≡ vec_len bytes.old }
    ensures capacity { vec_capacity bytes.old ≤ vec_capacity bytes.new }
{
    bytes.copy_within(start..end, start + size);
}

// Writes bytes over those from a place on.
fn write_at(bytes: &mut Vec<u8>, start: usize, part: &[u8])
    requires { start + length part.now ≤ vec_len bytes.old }
    ensures bytes { bytes.new.items ≡ take start bytes.old.items
        ++ (part.now ++ drop (start + length part.now) bytes.old.items) }
    ensures len { vec_len bytes.new ≡ vec_len bytes.old }
    ensures capacity { vec_capacity bytes.old ≤ vec_capacity bytes.new }
{
    bytes
        .slice_mut(start..start + part.len())
        .copy_from_slice(part);
}

// Puts a key and a number at a place, in room that is there.
fn put_bytes(bytes: &mut Vec<u8>, start: usize, key: &[u8], number: u32)
    requires within { start ≤ vec_len bytes.old }
    requires short { length key.now ≤ 100 }
    requires room { vec_len bytes.old + (length key.now + 4) ≤ vec_capacity bytes.old }
    ensures bytes { bytes.new.items ≡ take start bytes.old.items
        ++ (key.now ++ (little_bytes 4 number ++ drop start bytes.old.items)) }
    ensures capacity { vec_capacity bytes.old ≤ vec_capacity bytes.new }
    ensures fits { number < 2 ^ 32 }
{
    let end = bytes.len();
    add_pair(bytes, key, number);
    move_up(bytes, start, end, key.len() + NUMBER_SIZE);
    let mut last = [0; 4];
    LittleEndian::write_u32(&mut last, number);
    write_at(bytes, start, key);
    write_at(bytes, start + key.len(), &last);
}

// Takes out so many bytes at a place.
fn take_bytes(bytes: &mut Vec<u8>, start: usize, size: usize)
    requires { start + size ≤ vec_len bytes.old }
    ensures bytes { bytes.new.items ≡ take start bytes.old.items ++ drop (start + size) bytes.old.items }
    ensures capacity { vec_capacity bytes.old ≤ vec_capacity bytes.new }
{
    let end = bytes.len();
    bytes.copy_within(start + size..end, start);
    bytes.truncate(end - size);
}
