//! A key with a record number.

ghost use Rattle.std.specs.Prelude.{◌≡◌, ◌≤◌, length};
ghost use Rattle.key_lists.specs.Pairs.{is_before, key_before, pair_cmp};

use crate::bytes::held;
use arrayvec::ArrayVec;
use std::cmp::Ordering;
use std::marker::Model;

/// A key of at most 100 bytes, held in place, and a record number.
#[derive(Debug, Drop)]
pub struct Entry {
    key: ArrayVec<u8, 100>,
    number: u32,
}

impl Model for Entry {
    ghost use Rattle.std.specs.Prelude.{length, ◌≤◌};
    ghost use Rattle.key_lists.specs.Pairs.{Pair};

    ghost Value = { Pair };

    ghost view = { λ e. (e.key.items, e.number) };

    ghost invariant = { λ e. length e.key.items ≤ 100 };
}

impl Entry {
    /// A key of at most 100 bytes with a record number.
    pub fn new(key: &[u8], number: u32) -> Self
        requires { length key.now ≤ 100 }
        ensures { result ≡ (key.now, number) }
    {
        Entry {
            key: held(key),
            number,
        }
    }

    /// The key's bytes, at most 100.
    pub fn key(&self) -> &[u8]
        ensures value { result.now ≡ self.now.0 }
        ensures bound { length self.now.0 ≤ 100 }
    {
        self.key.as_slice()
    }

    /// The record number.
    pub fn number(&self) -> u32
        ensures { result ≡ self.now.1 }
    {
        self.number
    }

    /// The same entry again.
    pub fn copied(&self) -> Self
        ensures { result ≡ self.now }
    {
        Entry::new(self.key(), self.number())
    }

    /// How this entry stands to another: by the keys' bytes, equal keys by rising record.
    pub fn compare(&self, other: &Entry) -> Ordering
        ensures { result ≡ pair_cmp self.now other.now }
    {
        self.key()
            .cmp(other.key())
            .then(self.number.cmp(&other.number))
    }

    /// Whether this entry comes before a key with a record number.
    #[tactic(auto, unfolding(crate::specs::Pairs::is_before))]
    pub fn is_before(&self, key: &[u8], number: u32) -> bool
        ensures { result ≡ is_before self.now (key.now, number) }
    {
        self.key().cmp(key).then(self.number.cmp(&number)).is_lt()
    }

    /// Whether this entry comes after a key with a record number.
    #[tactic(auto, unfolding(crate::specs::Pairs::is_before))]
    pub fn is_after(&self, key: &[u8], number: u32) -> bool
        ensures { result ≡ is_before (key.now, number) self.now }
    {
        key.cmp(self.key()).then(number.cmp(&self.number)).is_lt()
    }

    /// Whether this entry's key comes before a key.
    #[tactic(auto, unfolding(crate::specs::Pairs::key_before))]
    pub fn has_key_before(&self, key: &[u8]) -> bool
        ensures { result ≡ key_before self.now.0 key.now }
    {
        self.key().cmp(key).is_lt()
    }
}
