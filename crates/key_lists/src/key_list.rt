//! What a list of keys does, whatever keeps it.

ghost use Rattle.std.specs.Prelude.{◌≡◌, ℕ, ◌+◌, ◌<◌, ◌≤◌, ◌↔◌, ◌^◌, List, OnOk, OnErr, IfOk, IsTrue, Contains, length};
ghost use Rattle.std.specs.Prelude.{reverse, true, false};
ghost use Rattle.std.specs.Fn.{FnReturnsAt};
ghost use Rattle.key_lists.specs.Order.{Each, above, below, first, inserted, without, in_order, IsDistinct};
ghost use Rattle.key_lists.specs.Pairs.{Pair, is_before, pairs_from};
ghost use Rattle.key_lists.specs.KeyForm.{KeyForm, IsKeyLength, IsKeyText, IsKeyList, IsPairOf};

use crate::Entry;
use std::alloc::{AllocError, Global};

/// A list of pairs of a key and a record number, in the order of the keys' bytes; pairs of one key stand by rising
/// record number. All keys have one length, and no pair stands twice.
///
/// Searches take `&mut self`, since a list may note what it looked at; its pairs and its reservation stay as they
/// were. A key that is searched for may have any length.
pub trait KeyList: Drop {
    /// The pairs, in order.
    ghost pairs: { Self → List Pair };

    /// How many more pairs are reserved for.
    ghost spare: { Self → ℕ };

    /// The length of the keys, and the text that says how they are made.
    ghost form: { Self → KeyForm };

    /// The list of these entries, put in order, with keys of `key_length` bytes (1 to 100).
    ///
    /// `key_text` (at most 100 bytes, none of them zero) says how the keys are made. Records count from 1, no pair
    /// stands twice, and there are fewer than 2^32; an empty list will do. Where memory is missing, what was taken is
    /// given up.
    fn rebuild(
        alloc: Global,
        key_length: usize,
        key_text: &[u8],
        entries: Vec<Entry>,
    ) -> Result<Self, AllocError>
        requires key_length { IsKeyLength key_length }
        requires key_text { IsKeyText key_text.now }
        requires keys { Each (IsPairOf key_length) entries.items }
        requires distinct { IsDistinct entries.items }
        requires few { length entries.items < 2 ^ 32 }
        ensures pairs { IfOk result (λ list. pairs list ≡ in_order is_before entries.items) }
        ensures key_length { IfOk result (λ list. (form list).key_length ≡ key_length) }
        ensures key_text { IfOk result (λ list. (form list).key_text ≡ key_text.now) }
        ensures sound { IfOk result (λ list. IsKeyList (form list) (pairs list)) };

    /// How many pairs there are.
    fn len(&self) -> usize
        ensures count { result ≡ length (pairs self.now) }
        ensures sound { IsKeyList (form self.now) (pairs self.now) };

    /// The length of each key, in bytes.
    fn key_length(&self) -> usize
        ensures { result ≡ (form self.now).key_length };

    /// The text that says how the keys are made.
    fn key_text(&self) -> &[u8]
        ensures { result.now ≡ (form self.now).key_text };

    /// Reserves for one more pair, for a list of fewer than 2^32 - 1. It fails only where nothing was reserved and
    /// memory is missing, and then the list is as it was.
    fn reserve_one(&mut self) -> Result<(), AllocError>
        requires few { length (pairs self.old) + 1 < 2 ^ 32 }
        ensures pairs { pairs self.new ≡ pairs self.old }
        ensures form { form self.new ≡ form self.old }
        ensures kept { spare self.old ≤ spare self.new }
        ensures ok { OnOk result (0 < spare self.new) }
        ensures refused { OnErr result (self.new ≡ self.old) }
        ensures needed { OnErr result (spare self.old ≡ 0) };

    /// Adds a pair that isn't there, its key being of the list's length, and uses up the reservation for it. It takes
    /// no memory.
    fn insert(&mut self, key: &[u8], number: u32)
        requires key_length { length key.now ≡ (form self.old).key_length }
        requires number { 1 ≤ number }
        requires reserved { 0 < spare self.old }
        requires absent { ¬ Contains (pairs self.old) (key.now, number) }
        ensures pairs { pairs self.new ≡ inserted is_before (key.now, number) (pairs self.old) }
        ensures form { form self.new ≡ form self.old }
        ensures used { spare self.old ≡ spare self.new + 1 }
        ensures sound { IsKeyList (form self.new) (pairs self.new) };

    /// Takes a pair out, and tells whether it was there. A reservation stays.
    fn remove(&mut self, key: &[u8], number: u32) -> bool
        ensures found { IsTrue result ↔ Contains (pairs self.old) (key.now, number) }
        ensures pairs { pairs self.new ≡ without is_before (key.now, number) (pairs self.old) }
        ensures form { form self.new ≡ form self.old }
        ensures kept { spare self.old ≤ spare self.new }
        ensures sound { IsKeyList (form self.new) (pairs self.new) };

    /// Whether a test holds of each pair. It is asked of the pairs in order, up to the first of which it doesn't hold.
    fn all<F: Fn(&Entry) -> bool>(&self, test: &F) -> bool
        requires { F.IsAlwaysCallable test.now }
        ensures all { IsTrue result → Each (λ p. FnReturnsAt F.Fn test.now p true) (pairs self.now) }
        ensures one { result ≡ false → (p : Pair) × Contains (pairs self.now) p × FnReturnsAt F.Fn test.now p false };

    /// The least pair.
    fn first(&mut self) -> Option<Entry>
        ensures found { result ≡ first (pairs self.old) }
        ensures pairs { pairs self.new ≡ pairs self.old }
        ensures form { form self.new ≡ form self.old }
        ensures spare { spare self.new ≡ spare self.old };

    /// The greatest pair.
    fn last(&mut self) -> Option<Entry>
        ensures found { result ≡ first (reverse (pairs self.old)) }
        ensures pairs { pairs self.new ≡ pairs self.old }
        ensures form { form self.new ≡ form self.old }
        ensures spare { spare self.new ≡ spare self.old };

    /// The least pair whose key isn't below the key. A key that begins with the key isn't below it.
    fn first_from(&mut self, key: &[u8]) -> Option<Entry>
        ensures found { result ≡ first (pairs_from key.now (pairs self.old)) }
        ensures pairs { pairs self.new ≡ pairs self.old }
        ensures form { form self.new ≡ form self.old }
        ensures spare { spare self.new ≡ spare self.old };

    /// The least pair above this one, which need not be in the list.
    fn after(&mut self, key: &[u8], number: u32) -> Option<Entry>
        ensures found { result ≡ first (above is_before (key.now, number) (pairs self.old)) }
        ensures pairs { pairs self.new ≡ pairs self.old }
        ensures form { form self.new ≡ form self.old }
        ensures spare { spare self.new ≡ spare self.old };

    /// The greatest pair below this one, which need not be in the list.
    fn before(&mut self, key: &[u8], number: u32) -> Option<Entry>
        ensures found { result ≡ first (below is_before (key.now, number) (pairs self.old)) }
        ensures pairs { pairs self.new ≡ pairs self.old }
        ensures form { form self.new ≡ form self.old }
        ensures spare { spare self.new ≡ spare self.old };
}
