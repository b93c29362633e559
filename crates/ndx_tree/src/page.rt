//! Pages of the tree.
//!
//! A page is a leaf, whose entries are pairs, or an inner page, whose entries separate its children: each of them is
//! the last pair of the child before it. So a search goes into one child alone, and what it looks for is there.

ghost use Rattle.std.specs.Prelude.{◌≡◌, ◌+◌, ◌<◌, ◌≤◌, [], ◌∷◌, ◌++◌, ◌*◌, ◌^◌, length, IsTrue, ◌↔◌, Some, IfOk};
ghost use Rattle.std.specs.Prelude.{OnOk, ℕ, ◌⊎◌, slice_index_or, slice_set, true, false, Contains};
ghost use Rattle.std.specs.Fn.{FnReturnsAt};
ghost use Rattle.std.specs.Vec.{vec_capacity, vec_len};
ghost use Rattle.key_lists.specs.Order.{Each};
ghost use Rattle.key_lists.specs.Rising.{IsAbsent, IsRising, last_of, first_from, last_below};
ghost use Rattle.ndx_tree.specs.Pages.{PageView, pairs_of_pages, view_of, Inserts, InsertsInRoom, Removes, Joins};
ghost use Rattle.ndx_tree.specs.Pages.{IsFramedPage};
ghost use Rattle.ndx_tree.specs.Pages.{IsChild, IsCut, IsMending, IsUneven, Evens, Mends, Divides};
ghost use Rattle.ndx_tree.specs.Blanks.{IsBlank, IsInnerBlank, IsPool};
ghost use Rattle.key_lists.specs.Pairs.{Pair, is_before};
ghost use Rattle.key_rows.specs.Flat.{HaveKeys};
ghost use Rattle.ndx_tree.specs.Rooms.{AreKeyed, room_for};

use crate::lists::{move_all, move_tail, put};
use key_lists::Entry;
use key_rows::Entries;
use std::alloc::{AllocError, Global};
use std::marker::Model;
use std::mem;

/// A page: a leaf, whose entries are pairs, or an inner page, whose entries separate its children.
#[derive(Debug, Drop)]
pub struct TreePage {
    most: usize,
    pub(crate) entries: Entries,
    pub(crate) children: Vec<TreePage>,
}

impl Model for TreePage {
    ghost use Rattle.std.specs.Prelude.{◌<◌, ◌≤◌, ◌+◌, length};
    ghost use Rattle.std.specs.Vec.{vec_capacity};
    ghost use Rattle.ndx_tree.specs.Pages.{PageView, view_of, IsFramedPage};
    ghost use Rattle.ndx_tree.specs.Falls.{falls};
    ghost use Rattle.ndx_tree.specs.Rooms.{room_for};

    ghost Value = { PageView };

    ghost view = { λ a. view_of a.most a.entries.items a.children.items };

    ghost invariant = { λ a. IsFramedPage a.most a.entries.items a.children.items × (length a.entries.items ≤ a.most)
        × (room_for a.most ≤ a.entries.room) × (0 < length a.children.items → a.most + 1 < vec_capacity a.children) };

    ghost size = { λ d. d.height };

    ghost size_decreases = { λ a h. falls a.most a.entries.items a.children.items h.0.framed };
}

/// A page that has room and nothing yet.
#[derive(Debug, Drop)]
pub struct Blank {
    pub(crate) entries: Entries,
    pub(crate) children: Vec<TreePage>,
}

/// The pages that stand ready for splits. A leaf has no room for children.
#[derive(Debug, Drop)]
pub struct SparePages {
    leaves: Vec<Blank>,
    inner: Vec<Blank>,
}

impl TreePage {
    /// A page of these parts.
    pub fn of_parts(most: usize, entries: Entries, children: Vec<TreePage>) -> TreePage
        requires parts { IsFramedPage most entries.items children.items }
        requires full { length entries.items ≤ most }
        requires room { room_for most ≤ entries.room }
        requires child_room { 0 < vec_len children → most + 1 < vec_capacity children }
        ensures { result ≡ view_of most entries.items children.items }
    {
        TreePage {
            most,
            entries,
            children,
        }
    }

    /// The most entries that the page may have.
    pub fn most(&self) -> usize
        ensures { result ≡ self.now.most }
    {
        self.most
    }

    /// How many pages stand one below another, from this page to a leaf.
    pub fn height(&self) -> usize
        requires { self.now.height < 2 ^ 32 }
        ensures { result ≡ self.now.height }
    {
        match self.children.first() {
            None => 1,
            Some(child) => child.height() + 1,
        }
    }

    /// How many entries the page itself has.
    pub fn count(&self) -> usize
        ensures { result ≡ self.now.count }
    {
        self.entries.len()
    }

    /// The first pair that does not stand before a key with a number. Each page that is looked at is counted.
    pub fn first_from(&self, key: &[u8], number: u64, seen: &mut usize) -> Option<Entry>
        ensures found { result ≡ first_from (key.now, number) self.now.pairs }
        ensures seen { seen.new ≤ seen.old + self.now.height }
    {
        let at = self.entries.place(key, number);
        look(seen);
        if self.children.is_empty() {
            if at < self.entries.len() {
                return Some(self.entries.get(at));
            }
            return None;
        }
        self.children[at].first_from(key, number, seen)
    }

    /// The last pair that stands before a key with a number. Each page that is looked at is counted.
    pub fn last_below(&self, key: &[u8], number: u64, seen: &mut usize) -> Option<Entry>
        ensures found { result ≡ last_below (key.now, number) self.now.pairs }
        ensures seen { seen.new ≤ seen.old + self.now.height }
    {
        let at = self.entries.place(key, number);
        look(seen);
        if self.children.is_empty() {
            return self.entries.before(at);
        }
        let below = self.children[at].last_below(key, number, seen);
        if below.is_some() {
            return below;
        }
        self.entries.before(at)
    }

    /// The last pair. Each page that is looked at is counted.
    pub fn last_pair(&self, seen: &mut usize) -> Entry
        requires { 0 < length self.now.pairs }
        ensures found { last_of self.now.pairs ≡ Some result }
        ensures seen { seen.new ≤ seen.old + self.now.height }
    {
        look(seen);
        if self.children.is_empty() {
            return self.entries.get(self.entries.len() - 1);
        }
        self.children[self.children.len() - 1].last_pair(seen)
    }

    /// Whether a test holds of each pair. It is asked of the pairs in order, up to the first of which it doesn't hold.
    pub fn all<F: Fn(&Entry) -> bool>(&self, test: &F) -> bool
        requires { F.IsAlwaysCallable test.now }
        ensures all { IsTrue result → Each (λ p. FnReturnsAt F.Fn test.now p true) self.now.pairs }
        ensures one { result ≡ false → (p : Pair) × Contains self.now.pairs p × FnReturnsAt F.Fn test.now p false }
    {
        if self.children.is_empty() {
            return self.entries.all(test);
        }
        let mut rest = self.children.as_slice();
        while let Some((child, others)) = rest.split_first() {
            if !child.all(test) {
                return false;
            }
            rest = others;
        }
        true
    }

    /// Takes a pair out, where it is there.
    pub fn remove(&mut self, key: &[u8], number: u32) -> bool
        requires inner { 1 < self.old.height → 0 < self.old.count }
        requires keyed { AreKeyed self.old.most self.old.pairs }
        ensures { Removes self.old (key.now, number) self.new result }
    {
        let at = self.entries.place_of_pair(key, number);
        if self.children.is_empty() {
            if at == self.entries.len() {
                return false;
            }
            if self.entries.get(at).is_after(key, number) {
                return false;
            }
            self.entries.remove(at);
            return true;
        }
        if !self.children[at].remove(key, number) {
            return false;
        }
        refresh(&mut self.entries, &self.children, at, key, number);
        mend(self.most, &mut self.entries, &mut self.children, at);
        true
    }

    /// Takes in the page beside it, where one page may have the entries of both. Else an entry moves over to the one
    /// that has less.
    pub fn join(&mut self, separator: Entry, right: TreePage) -> Option<(Entry, TreePage)>
        requires same_height { right.height ≡ self.old.height }
        requires same_most { right.most ≡ self.old.most }
        requires rising { IsRising (self.old.pairs ++ right.pairs) }
        requires separator { last_of self.old.pairs ≡ Some separator }
        requires keyed { AreKeyed self.old.most (self.old.pairs ++ right.pairs) }
        requires uneven { IsUneven self.old.most self.old.count right.count }
        ensures { Joins self.old right self.new result }
    {
        let TreePage {
            most: _,
            entries: mut later,
            children: mut later_children,
        } = right;
        let both = self.entries.len() + later.len();
        if self.children.is_empty() {
            if both <= self.most {
                later.copy_all(&mut self.entries);
                return None;
            }
            let last = even_leaves(&mut self.entries, &mut later);
            return Some((last, TreePage::of_parts(self.most, later, later_children)));
        }
        if both < self.most {
            self.entries.push(&separator);
            later.copy_all(&mut self.entries);
            move_all(&mut later_children, &mut self.children);
            return None;
        }
        let last = even_inner(
            &separator,
            &mut self.entries,
            &mut self.children,
            &mut later,
            &mut later_children,
        );
        Some((last, TreePage::of_parts(self.most, later, later_children)))
    }

    /// Whether it is an inner page with one child alone.
    pub fn is_idle(&self) -> bool
        requires { self.now.height < 2 ^ 32 }
        ensures { IsTrue result ↔ ((1 < self.now.height) × (self.now.count ≡ 0)) }
    {
        self.height() > 1 && self.count() == 0
    }

    /// Becomes its one child.
    pub fn lower(&mut self)
        requires inner { 1 < self.old.height }
        requires idle { self.old.count ≡ 0 }
        ensures pairs { self.new.pairs ≡ self.old.pairs }
        ensures height { self.old.height ≡ self.new.height + 1 }
        ensures child { IsChild self.new.height self.old.most self.new }
    {
        let Some(child) = self.children.pop() else {
            unreachable!()
        };
        *self = child;
    }

    /// Becomes a page above what the page was and a page beside it.
    pub fn raise(&mut self, separator: Entry, right: TreePage, blank: Blank)
        requires left { IsChild self.old.height self.old.most self.old }
        requires right { IsChild self.old.height self.old.most right }
        requires separator { last_of self.old.pairs ≡ Some separator }
        requires rising { IsRising (self.old.pairs ++ right.pairs) }
        requires keyed { AreKeyed self.old.most self.old.pairs }
        requires blank { IsInnerBlank self.old.most blank }
        ensures pairs { self.new.pairs ≡ self.old.pairs ++ right.pairs }
        ensures height { self.new.height ≡ self.old.height + 1 }
        ensures most { self.new.most ≡ self.old.most }
        ensures count { self.new.count ≡ 1 }
    {
        let Blank { entries, children } = blank;
        let left = TreePage {
            most: self.most,
            entries: mem::replace(&mut self.entries, entries),
            children: mem::replace(&mut self.children, children),
        };
        self.entries.put(0, &separator);
        put(&mut self.children, 0, left);
        put(&mut self.children, 1, right);
    }

    /// Puts a pair that is not there into its leaf, where that has room for one more, and tells whether it did.
    pub fn insert_in_room(&mut self, key: &[u8], number: u32) -> bool
        requires short { length key.now ≤ 100 }
        requires absent { IsAbsent (key.now, number) self.old.pairs }
        requires keyed { AreKeyed self.old.most ((key.now, number) ∷ self.old.pairs) }
        ensures { InsertsInRoom self.old (key.now, number) self.new result }
    {
        let at = self.entries.place_of_pair(key, number);
        if self.children.is_empty() {
            if self.entries.len() == self.most {
                return false;
            }
            self.entries.put_pair(at, key, number);
            return true;
        }
        if !self.children[at].insert_in_room(key, number) {
            return false;
        }
        true
    }

    /// Puts a pair that is not there into its place. Where the page is then too full, its later half is split off.
    pub fn insert_by_splits(
        &mut self,
        entry: Entry,
        pool: &mut SparePages,
    ) -> Option<(Entry, TreePage)>
        requires absent { IsAbsent entry self.old.pairs }
        requires keyed { AreKeyed self.old.most (entry ∷ self.old.pairs) }
        requires leaf { 0 < vec_len pool.old.leaves }
        requires room { self.old.height ≤ vec_len pool.old.inner + 1 }
        requires pool { IsPool self.old.most pool.old }
        ensures inserts { Inserts self.old entry self.new result }
        ensures used { vec_len pool.old.inner + 1 ≤ vec_len pool.new.inner + self.old.height }
        ensures pool { IsPool self.old.most pool.new }
    {
        let at = self.entries.place_for(&entry);
        if self.children.is_empty() {
            self.entries.put(at, &entry);
            if self.entries.len() <= self.most {
                return None;
            }
            let blank = take_leaf(self.most, pool);
            return Some(split_leaf(self.most, &mut self.entries, blank));
        }
        let (separator, right) = self.children[at].insert_by_splits(entry, pool)?;
        self.entries.put(at, &separator);
        put(&mut self.children, at + 1, right);
        if self.entries.len() <= self.most {
            return None;
        }
        let blank = take_inner(self.most, pool);
        Some(split_inner(self.most, &mut self.entries, &mut self.children, blank))
    }
}

impl Blank {
    /// A blank leaf, with room for the entries of a page that has one too many.
    pub fn leaf(alloc: Global, most: usize) -> Result<Blank, AllocError>
        requires { (0 < most) × (most < 1000) }
        ensures { IfOk result (IsBlank most) }
    {
        Ok(Blank {
            entries: Entries::with_room(alloc, room_of(most))?,
            children: Vec::new(alloc),
        })
    }

    /// A blank inner page, with room for the children of one too.
    pub fn inner(alloc: Global, most: usize) -> Result<Blank, AllocError>
        requires { (0 < most) × (most < 1000) }
        ensures { IfOk result (IsInnerBlank most) }
    {
        Ok(Blank {
            entries: Entries::with_room(alloc, room_of(most))?,
            children: Vec::with_capacity(alloc, most + 2)?,
        })
    }
}

impl SparePages {
    /// No page stands ready.
    pub fn new(alloc: Global) -> SparePages
        ensures leaves { result.leaves.items ≡ [] }
        ensures inner { result.inner.items ≡ [] }
    {
        SparePages {
            leaves: Vec::new(alloc),
            inner: Vec::new(alloc),
        }
    }

    /// Adds blank pages until there are a leaf and as many inner pages as are wanted. Where memory is missing, those
    /// that were added stay.
    pub fn stock(&mut self, alloc: Global, most: usize, wanted: usize) -> Result<(), AllocError>
        requires most { (0 < most) × (most < 1000) }
        requires pool { IsPool most self.old }
        ensures pool { IsPool most self.new }
        ensures leaf { OnOk result (0 < vec_len self.new.leaves) }
        ensures inner { OnOk result (wanted ≤ vec_len self.new.inner) }
        ensures kept_leaves { vec_len self.old.leaves ≤ vec_len self.new.leaves }
        ensures kept_inner { vec_len self.old.inner ≤ vec_len self.new.inner }
    {
        stock_leaf(alloc, most, &mut self.leaves)?;
        stock_inner(alloc, most, wanted, &mut self.inner)
    }
}

// Adds a blank leaf where there is none.
fn stock_leaf(alloc: Global, most: usize, leaves: &mut Vec<Blank>) -> Result<(), AllocError>
    requires most { (0 < most) × (most < 1000) }
    requires blank { Each (IsBlank most) leaves.old.items }
    ensures blank { Each (IsBlank most) leaves.new.items }
    ensures enough { OnOk result (0 < vec_len leaves.new) }
    ensures kept { vec_len leaves.old ≤ vec_len leaves.new }
{
    if leaves.is_empty() {
        leaves.push(Blank::leaf(alloc, most)?)?;
    }
    Ok(())
}

// Adds blank inner pages until there are as many as are wanted.
fn stock_inner(
    alloc: Global,
    most: usize,
    wanted: usize,
    inner: &mut Vec<Blank>,
) -> Result<(), AllocError>
    requires most { (0 < most) × (most < 1000) }
    requires blank { Each (IsInnerBlank most) inner.old.items }
    ensures blank { Each (IsInnerBlank most) inner.new.items }
    ensures enough { OnOk result (wanted ≤ vec_len inner.new) }
    ensures kept { vec_len inner.old ≤ vec_len inner.new }
{
    for _count in inner.len()..wanted {
        inner.push(Blank::inner(alloc, most)?)?;
    }
    Ok(())
}

// Takes one of the blank leaves, of which there is one.
fn take_leaf(most: usize, pool: &mut SparePages) -> Blank
    requires some { 0 < vec_len pool.old.leaves }
    requires pool { IsPool most pool.old }
    ensures blank { IsBlank most result }
    ensures pool { IsPool most pool.new }
    ensures inner { vec_len pool.new.inner ≡ vec_len pool.old.inner }
{
    let Some(blank) = pool.leaves.pop() else {
        unreachable!()
    };
    blank
}

// Takes one of the blank inner pages, of which there is one.
pub(crate) fn take_inner(most: usize, pool: &mut SparePages) -> Blank
    requires some { 0 < vec_len pool.old.inner }
    requires pool { IsPool most pool.old }
    ensures blank { IsInnerBlank most result }
    ensures pool { IsPool most pool.new }
    ensures one { vec_len pool.old.inner ≡ vec_len pool.new.inner + 1 }
    ensures leaves { vec_len pool.new.leaves ≡ vec_len pool.old.leaves }
{
    let Some(blank) = pool.inner.pop() else {
        unreachable!()
    };
    blank
}

// How many bytes the entries of one page may take, with one too many.
#[tactic(auto, unfolding(crate::specs::Rooms::room_for))]
fn room_of(most: usize) -> usize
    requires { (0 < most) × (most < 1000) }
    ensures { result ≡ room_for most }
{
    (most + 1) * (504 / most).saturating_sub(4)
}

// Counts a page that is looked at, up to the greatest number.
fn look(seen: &mut usize)
    ensures { seen.new ≤ seen.old + 1 }
{
    *seen = seen.saturating_add(1);
}

// Makes the separator after a child its last pair again, once a pair was taken out of the child. A separator that
// stands after that pair is its last pair still.
fn refresh(entries: &mut Entries, children: &[TreePage], at: usize, key: &[u8], number: u32)
    requires within { at < length children.now }
    requires alike { (k : ℕ) × HaveKeys k entries.old.items × HaveKeys k (pairs_of_pages children.now)
        × (length entries.old.items * (k + 4) ≤ entries.old.room) }
    requires some { (d : PageView) → 0 < length (slice_index_or children.now at d).pairs }
    requires cut { (d : PageView) (t : Pair) → last_of (slice_index_or children.now at d).pairs ≡ Some t
        → IsCut (slice_set entries.old.items at t) children.now }
    requires kept { (d : Pair) → at < length entries.old.items
        → is_before (key.now, number) (slice_index_or entries.old.items at d) ≡ true
        → IsCut entries.old.items children.now }
    ensures cut { IsCut entries.new.items children.now }
    ensures len { length entries.new.items ≡ length entries.old.items }
    ensures room { entries.old.room ≤ entries.new.room }
{
    if at >= entries.len() {
        return;
    }
    if entries.get(at).is_after(key, number) {
        return;
    }
    let mut seen = 0;
    let last = children[at].last_pair(&mut seen);
    entries.set(at, &last);
}

// The first of the child at a place and a neighbour of it.
fn first_of_two(at: usize, separators: usize) -> usize
    requires some { 0 < separators }
    requires within { at ≤ separators }
    ensures within { result < separators }
    ensures near { (result ≡ at) ⊎ (result + 1 ≡ at) }
{
    if at < separators { at } else { at - 1 }
}

// Joins a child that has too few entries with a neighbour.
fn mend(most: usize, entries: &mut Entries, children: &mut Vec<TreePage>, at: usize)
    requires mending { (h : ℕ) × IsMending h most at entries.old.items children.old.items }
    requires keyed { AreKeyed most (pairs_of_pages children.old.items) }
    requires room { room_for most ≤ entries.old.room }
    requires child_room { most + 1 < vec_capacity children.old }
    ensures mends { Mends most entries.old.items children.old.items entries.new.items children.new.items }
    ensures room { entries.old.room ≤ entries.new.room }
    ensures child_capacity { vec_capacity children.old ≤ vec_capacity children.new }
{
    if children[at].count() >= most / 2 {
        return;
    }
    let first = first_of_two(at, entries.len());
    let right = children.remove(first + 1);
    let separator = entries.get(first);
    entries.remove(first);
    let Some((separator, right)) = children[first].join(separator, right) else {
        return;
    };
    entries.put(first, &separator);
    put(children, first + 1, right);
}

// Moves an entry from the leaf that has more to the one beside it, and answers the first one's last.
fn even_leaves(low: &mut Entries, high: &mut Entries) -> Entry
    requires keyed { (k : ℕ) × HaveKeys k low.old.items × HaveKeys k high.old.items
        × ((length low.old.items + 1) * (k + 4) ≤ low.old.room)
        × ((length high.old.items + 1) * (k + 4) ≤ high.old.room) }
    requires some { 2 < length low.old.items + length high.old.items }
    ensures whole { low.new.items ++ high.new.items ≡ low.old.items ++ high.old.items }
    ensures last { last_of low.new.items ≡ Some result }
    ensures evens { Evens (length low.old.items) (length high.old.items) (length low.new.items) }
    ensures low_room { low.old.room ≤ low.new.room }
    ensures high_room { high.old.room ≤ high.new.room }
{
    if low.len() < high.len() {
        let first = high.take_first();
        low.push(&first);
        return first;
    }
    let last = low.take_last();
    high.put(0, &last);
    low.get(low.len() - 1)
}

// Moves an entry and a child from the inner page that has more to the one beside it, through the separator, and answers
// the new separator.
fn even_inner(
    separator: &Entry,
    low: &mut Entries,
    left: &mut Vec<TreePage>,
    high: &mut Entries,
    right: &mut Vec<TreePage>,
) -> Entry
    requires keyed { (k : ℕ) × HaveKeys k low.old.items × HaveKeys k high.old.items × (length separator.now.0 ≡ k)
        × ((length low.old.items + 1) * (k + 4) ≤ low.old.room)
        × ((length high.old.items + 1) * (k + 4) ≤ high.old.room) }
    requires some { 0 < length low.old.items + length high.old.items }
    requires left { vec_len left.old ≡ length low.old.items + 1 }
    requires right { vec_len right.old ≡ length high.old.items + 1 }
    requires left_room { vec_len left.old < vec_capacity left.old }
    requires right_room { vec_len right.old < vec_capacity right.old }
    ensures whole { low.new.items ++ result ∷ high.new.items ≡ low.old.items ++ separator.now ∷ high.old.items }
    ensures children { left.new.items ++ right.new.items ≡ left.old.items ++ right.old.items }
    ensures more { vec_len left.new ≡ length low.new.items + 1 }
    ensures evens { Evens (length low.old.items) (length high.old.items) (length low.new.items) }
    ensures low_room { low.old.room ≤ low.new.room }
    ensures high_room { high.old.room ≤ high.new.room }
    ensures left_capacity { vec_capacity left.old ≤ vec_capacity left.new }
    ensures right_capacity { vec_capacity right.old ≤ vec_capacity right.new }
{
    if low.len() < high.len() {
        low.push(separator);
        let end = left.len();
        put(left, end, right.remove(0));
        return high.take_first();
    }
    high.put(0, separator);
    let Some(child) = left.pop() else {
        unreachable!()
    };
    put(right, 0, child);
    low.take_last()
}

// Splits the later half off a leaf that has too many entries.
fn split_leaf(most: usize, entries: &mut Entries, blank: Blank) -> (Entry, TreePage)
    requires parts { IsFramedPage most entries.old.items [] }
    requires keyed { AreKeyed most entries.old.items }
    requires too_many { most < length entries.old.items }
    requires below { length entries.old.items ≤ most + 1 }
    requires blank { IsBlank most blank }
    ensures divides { Divides most entries.old.items [] entries.new.items [] result }
    ensures room { entries.old.room ≤ entries.new.room }
{
    let Blank {
        entries: mut later,
        children,
    } = blank;
    let kept = entries.len() / 2;
    entries.move_tail(kept, &mut later);
    let separator = entries.get(kept - 1);
    let page = TreePage {
        most,
        entries: later,
        children,
    };
    (separator, page)
}

// Splits the later half off an inner page that has too many entries. The entry between the halves separates them.
fn split_inner(
    most: usize,
    entries: &mut Entries,
    children: &mut Vec<TreePage>,
    blank: Blank,
) -> (Entry, TreePage)
    requires parts { IsFramedPage most entries.old.items children.old.items }
    requires keyed { AreKeyed most entries.old.items }
    requires inner { 0 < vec_len children.old }
    requires too_many { most < length entries.old.items }
    requires below { length entries.old.items ≤ most + 1 }
    requires blank { IsInnerBlank most blank }
    ensures divides { Divides most entries.old.items children.old.items entries.new.items children.new.items result }
    ensures room { entries.old.room ≤ entries.new.room }
    ensures child_capacity { vec_capacity children.old ≤ vec_capacity children.new }
{
    let Blank {
        entries: mut later,
        children: mut later_children,
    } = blank;
    let kept = entries.len() / 2;
    let separator = entries.get(kept);
    entries.move_tail(kept + 1, &mut later);
    move_tail(children, kept + 1, &mut later_children);
    entries.truncate(kept);
    let page = TreePage {
        most,
        entries: later,
        children: later_children,
    };
    (separator, page)
}
