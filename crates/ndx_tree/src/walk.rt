//! The walk over the pages of an index file.

ghost use Rattle.std.specs.Prelude.{◌≡◌, ℕ, ◌+◌, ◌*◌, ◌<◌, ◌≤◌, ◌++◌, List, Some, Result, Bool, false, length};
ghost use Rattle.std.specs.Prelude.{replicate, slice_index_or, Ok, Err, None, [], ◌⊎◌, ◌^◌, IfOk, IfErr, OnOk};
ghost use Rattle.ndx_tree.specs.declared.fault.TreeFault.TheVariants.{Memory};
ghost use Rattle.ndx_page.specs.PageLayout.{FitsKeys};
ghost use Rattle.key_rows.specs.Flat.{HaveKeys};
ghost use Rattle.ndx_tree.specs.IndexFile.{page_at, page_count, leaf_pairs};
ghost use Rattle.ndx_tree.specs.Walk.{Seen, walk, pages_of, is_level, with_separator, visit, walk_file};
ghost use Rattle.key_lists.specs.Order.{Each};
ghost use Rattle.key_lists.specs.KeyForm.{IsPairOf};
ghost use Rattle.ndx_tree.specs.declared.fault.TreeFault.{TreeFault as TheFault};
ghost use Rattle.ndx_tree.specs.Reads.{ShowsSeen, Marks, WalkGives, Opens, unset};

use crate::TreeFault;
use arrayvec::ArrayVec;
use key_lists::held;
use key_rows::Entries;
use ndx_page::laws::pages_are_told;
use ndx_page::{Head, MAX_KEY, PAGE_SIZE, Page, read_page};
use std::alloc::{AllocError, Global};

/// The key of an entry between two children, and how many pairs stand before it.
#[derive(Debug, Drop)]
pub(crate) struct Separator {
    pub(crate) place: usize,
    pub(crate) key: ArrayVec<u8, MAX_KEY>,
}

/// What a walk has met: which pages were reached, where the first leaf stood, and the pairs and separators in order.
/// The pairs stand side by side in one row.
#[derive(Debug, Drop)]
pub(crate) struct Found {
    pub(crate) reached: Vec<bool>,
    pub(crate) level: Option<usize>,
    pub(crate) entries: Entries,
    pub(crate) separators: Vec<Separator>,
}

// The bytes of a page.
fn bytes_of(bytes: &[u8], place: usize) -> &[u8; PAGE_SIZE]
    requires { place < page_count bytes.now }
    ensures { result.now ≡ page_at place bytes.now }
{
    match bytes[place * PAGE_SIZE..].first_chunk::<PAGE_SIZE>() {
        Some(page) => page,
        None => unreachable!(),
    }
}

// The page of a number that was not reached before.
fn open_page(head: &Head, bytes: &[u8], number: u32, reached: &[bool]) -> Result<Page, TreeFault>
    requires { length reached.now ≡ page_count bytes.now }
    ensures opens { (seen : List ℕ) → Marks (page_count bytes.now) reached.now seen
        → Opens head.now.length bytes.now number seen result }
    ensures fits { IfOk result (FitsKeys head.now.length) }
    ensures within { IfOk result (λ _. number < page_count bytes.now) }
    ensures free { IfOk result (λ _. (d : Bool) → slice_index_or reached.now number d ≡ false) }
{
    pages_are_told();
    let place = number as usize;
    if place == 0 || place >= reached.len() || reached[place] {
        return Err(TreeFault::Reach);
    }
    match read_page(head, bytes_of(bytes, place)) {
        Ok(page) => Ok(page),
        Err(_) => Err(TreeFault::Page),
    }
}

// Whether a leaf may stand at a level, where the first stood at this one.
fn may_stand(level: usize, first: Option<usize>) -> bool
    ensures { result ≡ is_level level first }
{
    match first {
        None => true,
        Some(first) => level == first,
    }
}

// Adds the pairs of a leaf's entries.
fn add_pairs(entries: &[ndx_page::PageEntry], pairs: &mut Entries) -> Result<(), AllocError>
    requires alike { (k : ℕ) × (k ≤ 100) × HaveKeys k pairs.old.items × HaveKeys k (leaf_pairs entries.now) }
    ensures items { OnOk result (pairs.new.items ≡ pairs.old.items ++ leaf_pairs entries.now) }
    ensures few { length pairs.new.items ≤ length pairs.old.items + length entries.now }
{
    for entry in entries {
        pairs.add(entry.key.as_slice(), entry.number)?;
    }
    Ok(())
}

// Takes in a leaf that stands at a level.
fn take_leaf(level: usize, page: &Page, found: &mut Found) -> Result<(), TreeFault>
    requires alike { (k : ℕ) × (k ≤ 100) × HaveKeys k found.old.entries.items
        × HaveKeys k (leaf_pairs page.now.entries.items) }
    ensures leaf { (k count : ℕ) (s : Seen) (f : ℕ → Seen → Result Seen TheFault)
        → Each (IsPairOf k) (leaf_pairs page.now.entries.items) → ShowsSeen k count found.old s
        → WalkGives k count result found.new (visit f level page.now 0 s) }
    ensures bits { found.new.reached.items ≡ found.old.reached.items }
    ensures alike { (k : ℕ) → HaveKeys k found.old.entries.items → HaveKeys k (leaf_pairs page.now.entries.items)
        → OnOk result (HaveKeys k found.new.entries.items) }
    ensures few { length found.new.entries.items ≤ length found.old.entries.items + length page.now.entries.items }
{
    if !may_stand(level, found.level) {
        return Err(TreeFault::Depth);
    }
    found.level = Some(level);
    add_pairs(page.entries.as_slice(), &mut found.entries)?;
    Ok(())
}

// Takes in the separator behind a child.
fn take_separator(key: &[u8], found: &mut Found) -> Result<(), AllocError>
    requires { length key.now ≤ 100 }
    ensures shown { (k count : ℕ) (s : Seen) → ShowsSeen k count found.old s
        → OnOk result (ShowsSeen k count found.new (with_separator (Some key.now) s)) }
    ensures bits { found.new.reached.items ≡ found.old.reached.items }
    ensures entries { found.new.entries.items ≡ found.old.entries.items }
{
    let place = found.entries.len();
    found.separators.push(Separator {
        place,
        key: held(key),
    })?;
    Ok(())
}

// Walks a page and what is below it, where at most `left` pages stand one below another.
fn read_below(
    head: &Head,
    bytes: &[u8],
    left: usize,
    number: u32,
    found: &mut Found,
) -> Result<(), TreeFault>
    requires bits { length found.old.reached.items ≡ page_count bytes.now }
    requires alike { HaveKeys head.now.length found.old.entries.items }
    ensures walked { (s : Seen) → ShowsSeen head.now.length (page_count bytes.now) found.old s
        → WalkGives head.now.length (page_count bytes.now) result found.new
        (walk (pages_of head.now.length bytes.now) (page_count bytes.now) left number s) }
    ensures bits { length found.new.reached.items ≡ page_count bytes.now }
    ensures alike { OnOk result (HaveKeys head.now.length found.new.entries.items) }
    ensures few { length found.new.entries.items + 42 * unset found.new.reached.items ≤ length found.old.entries.items
        + 42 * unset found.old.reached.items }
{
    let page = open_page(head, bytes, number, &found.reached)?;
    if left == 0 {
        return Err(TreeFault::Depth);
    }
    found.reached[number as usize] = true;
    let last = page.last;
    if last == 0 {
        return take_leaf(left - 1, &page, found);
    }
    for entry in page.entries.as_slice() {
        read_below(head, bytes, left - 1, entry.child, found)?;
        take_separator(entry.key.as_slice(), found)?;
    }
    read_below(head, bytes, left - 1, last, found)
}

impl Found {
    // Nothing was found yet in a file of so many pages.
    fn new(alloc: Global, pages: usize) -> Result<Found, AllocError>
        ensures bits { IfOk result (λ found. found.reached.items ≡ replicate pages false) }
        ensures level { IfOk result (λ found. found.level ≡ None) }
        ensures entries { IfOk result (λ found. found.entries.items ≡ []) }
        ensures separators { IfOk result (λ found. found.separators.items ≡ []) }
    {
        Ok(Found {
            reached: vec![in alloc; false; pages]?,
            level: None,
            entries: Entries::with_room(alloc, 0)?,
            separators: Vec::new(alloc),
        })
    }
}

/// Walks the pages of a file of at most 64 MiB, from its root on.
pub(crate) fn walk_pages(alloc: Global, head: &Head, bytes: &[u8]) -> Result<Found, TreeFault>
    requires { length bytes.now ≤ 67108864 }
    ensures met { IfOk result (λ found. (t : Seen) × (walk_file head.now bytes.now ≡ Ok t)
        × ShowsSeen head.now.length (page_count bytes.now) found t) }
    ensures fault { IfErr result (λ fault. (fault ≡ Memory) ⊎ (walk_file head.now bytes.now ≡ Err fault)) }
    ensures few { IfOk result (λ found. length found.entries.items < 2 ^ 32) }
{
    let mut found = Found::new(alloc, bytes.len() / PAGE_SIZE)?;
    read_below(head, bytes, 20, head.root, &mut found)?;
    Ok(found)
}
