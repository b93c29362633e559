//! A list of keys in a tree of pages.

ghost use Rattle.std.specs.Prelude.{◌≡◌, ◌<◌, ◌≤◌, ◌^◌, length, reverse, IfOk, Contains, ℕ, ◌-◌};
ghost use Rattle.key_lists.specs.Order.{Each, above, below, first};
ghost use Rattle.key_lists.specs.Pairs.{is_before, pairs_from};
ghost use Rattle.key_lists.specs.KeyForm.{KeyForm, IsKeyLength, IsPairOf};
ghost use Rattle.ndx_tree.specs.Trees.{IsTree};
ghost use Rattle.key_lists.specs.Rising.{IsAbsent, IsRising, first_from, with_pair};

use crate::build::{root_of, row_of};
use crate::page::{SparePages, TreePage, take_inner};
use arrayvec::ArrayVec;
use key_lists::{Entry, KeyList, held, put_in_order};
use key_rows::Entries;
use ndx_page::{MAX_TEXT, most_entries};
use std::alloc::{AllocError, Global};
use std::marker::Model;

/// A list of keys in a tree of pages, as an index file holds it.
///
/// Each page but the root is at least half full, and the height is at most 20. A reservation is a set of blank pages
/// that serves for the splits of any one insertion.
#[derive(Debug, Drop)]
pub struct NdxTree {
    alloc: Global,
    pub(crate) key_length: usize,
    pub(crate) key_text: ArrayVec<u8, MAX_TEXT>,
    pub(crate) root: TreePage,
    pool: SparePages,
    reserved: usize,
    count: usize,
    seen: usize,
}

impl Model for NdxTree {
    ghost use Rattle.std.specs.Prelude.{◌≡◌, ◌<◌, ◌≤◌, ◌^◌, length};
    ghost use Rattle.ndx_tree.specs.Trees.{TreeView, IsTree};

    ghost Value = { TreeView };

    ghost view = { λ t. record {
      pairs = t.root.pairs;
      height = t.root.height;
      spare = t.reserved;
      seen = t.seen;
      form = record { key_length = t.key_length; key_text = t.key_text.items };
    } };

    ghost invariant = { λ t. IsTree (record {
      key_length = t.key_length;
      key_text = t.key_text.items;
    }) t.root t.pool t.reserved × (t.count ≡ length t.root.pairs) };
}

impl NdxTree {
    /// The tree of fewer than 2^32 pairs that rise, made in time linear in their number.
    pub(crate) fn of_rising(
        alloc: Global,
        key_length: usize,
        key_text: ArrayVec<u8, MAX_TEXT>,
        entries: &Entries,
    ) -> Result<NdxTree, AllocError>
        requires key_length { IsKeyLength key_length }
        requires key_text { ¬ Contains key_text.items 0 }
        requires keys { Each (IsPairOf key_length) entries.now.items }
        requires rising { IsRising entries.now.items }
        requires few { length entries.now.items < 2 ^ 32 }
        ensures pairs { IfOk result (λ t. t.pairs ≡ entries.now.items) }
        ensures key_length { IfOk result (λ t. t.form.key_length ≡ key_length) }
        ensures key_text { IfOk result (λ t. t.form.key_text ≡ key_text.items) }
    {
        Ok(NdxTree {
            alloc,
            key_length,
            key_text,
            root: root_of(alloc, most_entries(key_length), entries)?,
            pool: SparePages::new(alloc),
            reserved: 0,
            count: entries.len(),
            seen: 0,
        })
    }

    /// How many pages stand one below another, from the root to a leaf.
    pub fn height(&self) -> usize
        ensures exact { result ≡ self.now.height }
        ensures low { result ≤ 20 }
    {
        self.root.height()
    }

    /// How many pages the last search looked at.
    pub fn pages_seen(&self) -> usize
        ensures { result ≡ self.now.seen }
    {
        self.seen
    }

    /// The least pair that isn't before a key with a number.
    fn search_from(&mut self, key: &[u8], number: u64) -> Option<Entry>
        ensures found { result ≡ first_from (key.now, number) self.old.pairs }
        ensures same { self.new ≡ record self.old { seen = self.new.seen } }
        ensures seen { self.new.seen ≤ self.new.height }
    {
        self.seen = 0;
        self.root.first_from(key, number, &mut self.seen)
    }

    /// The least pair.
    pub fn first(&mut self) -> Option<Entry>
        ensures found { result ≡ first self.old.pairs }
        ensures pairs { self.new.pairs ≡ self.old.pairs }
        ensures same { self.new ≡ record self.old { seen = self.new.seen } }
        ensures seen { self.new.seen ≤ self.new.height }
    {
        self.search_from(b"", 0)
    }

    /// The greatest pair.
    pub fn last(&mut self) -> Option<Entry>
        ensures found { result ≡ first (reverse self.old.pairs) }
        ensures pairs { self.new.pairs ≡ self.old.pairs }
        ensures same { self.new ≡ record self.old { seen = self.new.seen } }
        ensures seen { self.new.seen ≤ self.new.height }
    {
        self.seen = 0;
        if self.count == 0 {
            return None;
        }
        Some(self.root.last_pair(&mut self.seen))
    }

    /// The least pair whose key isn't below the key. A key that begins with the key isn't below it.
    pub fn first_from(&mut self, key: &[u8]) -> Option<Entry>
        ensures found { result ≡ first (pairs_from key.now self.old.pairs) }
        ensures same { self.new ≡ record self.old { seen = self.new.seen } }
        ensures seen { self.new.seen ≤ self.new.height }
    {
        self.search_from(key, 0)
    }

    /// The least pair above this one, which need not be in the list.
    pub fn after(&mut self, key: &[u8], number: u32) -> Option<Entry>
        ensures found { result ≡ first (above is_before (key.now, number) self.old.pairs) }
        ensures same { self.new ≡ record self.old { seen = self.new.seen } }
        ensures seen { self.new.seen ≤ self.new.height }
    {
        self.search_from(key, u64::from(number) + 1)
    }

    /// The greatest pair below this one, which need not be in the list.
    pub fn before(&mut self, key: &[u8], number: u32) -> Option<Entry>
        ensures found { result ≡ first (below is_before (key.now, number) self.old.pairs) }
        ensures same { self.new ≡ record self.old { seen = self.new.seen } }
        ensures seen { self.new.seen ≤ self.new.height }
    {
        self.seen = 0;
        self.root.last_below(key, u64::from(number), &mut self.seen)
    }
}

// Puts a pair that is not there below a root, which becomes two pages and a root over them where it is too full. It
// stands alone, since most insertions need no such room on the stack.
#[inline(never)]
fn grow(root: &mut TreePage, entry: Entry, pool: &mut SparePages)
    requires absent { IsAbsent entry root.old.pairs }
    requires tree { (form : KeyForm) × (reserved : ℕ) × IsTree form root.old pool.old reserved × (0 < reserved)
        × IsPairOf form.key_length entry }
    ensures tree { (form : KeyForm) (reserved : ℕ) → IsTree form root.old pool.old reserved → 0 < reserved
        → IsPairOf form.key_length entry → IsTree form root.new pool.new (reserved - 1) }
    ensures pairs { root.new.pairs ≡ with_pair entry root.old.pairs }
{
    if let Some((separator, right)) = root.insert_by_splits(entry, pool) {
        let blank = take_inner(root.most(), pool);
        root.raise(separator, right, blank);
    }
}

impl KeyList for NdxTree {
    ghost pairs = { λ t. t.pairs };

    ghost spare = { λ t. t.spare };

    ghost form = { λ t. t.form };

    fn rebuild(
        alloc: Global,
        key_length: usize,
        key_text: &[u8],
        mut entries: Vec<Entry>,
    ) -> Result<Self, AllocError> {
        put_in_order(&mut entries);
        let row = row_of(alloc, key_length, &entries)?;
        drop(entries);
        NdxTree::of_rising(alloc, key_length, held(key_text), &row)
    }

    fn len(&self) -> usize {
        self.count
    }

    fn key_length(&self) -> usize {
        self.key_length
    }

    fn key_text(&self) -> &[u8] {
        self.key_text.as_slice()
    }

    fn reserve_one(&mut self) -> Result<(), AllocError> {
        if self.reserved > 0 {
            return Ok(());
        }
        let wanted = self.root.height();
        self.pool.stock(self.alloc, self.root.most(), wanted)?;
        self.reserved = 1;
        Ok(())
    }

    fn insert(&mut self, key: &[u8], number: u32) {
        self.reserved -= 1;
        self.count += 1;
        if self.root.insert_in_room(key, number) {
            return;
        }
        grow(&mut self.root, Entry::new(key, number), &mut self.pool);
    }

    fn remove(&mut self, key: &[u8], number: u32) -> bool {
        if !self.root.remove(key, number) {
            return false;
        }
        self.count -= 1;
        if self.root.is_idle() {
            self.root.lower();
        }
        true
    }

    fn all<F: Fn(&Entry) -> bool>(&self, test: &F) -> bool {
        self.root.all(test)
    }

    fn first(&mut self) -> Option<Entry> {
        self.first()
    }

    fn last(&mut self) -> Option<Entry> {
        self.last()
    }

    fn first_from(&mut self, key: &[u8]) -> Option<Entry> {
        self.first_from(key)
    }

    fn after(&mut self, key: &[u8], number: u32) -> Option<Entry> {
        self.after(key, number)
    }

    fn before(&mut self, key: &[u8], number: u32) -> Option<Entry> {
        self.before(key, number)
    }
}
