//! A tree from the bytes of an index file.

ghost use Rattle.std.specs.Prelude.{◌≡◌, ◌<◌, ◌≤◌, ◌^◌, List, Contains, length, IfOk, IfErr, MatchResult};
ghost use Rattle.key_lists.specs.Order.{Each};
ghost use Rattle.key_lists.specs.Pairs.{Pair};
ghost use Rattle.key_lists.specs.Rising.{IsRising};
ghost use Rattle.key_lists.specs.KeyForm.{KeyForm, IsKeyLength, IsPairOf};
ghost use Rattle.ndx_tree.specs.IndexFile.{IsIndexFile, page_count};
ghost use Rattle.ndx_tree.specs.IndexText.{IsIndexText};
ghost use Rattle.ndx_page.specs.Numbers.{number_at};
ghost use Rattle.ndx_tree.specs.Walk.{IsFirstFault};
ghost use Rattle.ndx_tree.specs.declared.fault.TreeFault.TheVariants.{Memory};

use crate::laws::holds_one_list;
use crate::order::is_in_order;
use crate::walk::walk_pages;
use crate::{NdxTree, TreeFault};
use key_lists::held;
use key_rows::Entries;
use ndx_page::laws::pages_are_told;
use ndx_page::{Head, read_head, write_head};
use std::alloc::{AllocError, Global};

// The tree of pairs that rise.
fn tree_of(alloc: Global, head: Head, entries: Entries) -> Result<NdxTree, AllocError>
    requires rising { IsRising entries.items }
    requires keys { Each (IsPairOf head.length) entries.items }
    requires few { length entries.items < 2 ^ 32 }
    ensures pairs { IfOk result (λ tree. tree.pairs ≡ entries.items) }
    ensures key_length { IfOk result (λ tree. tree.form.key_length ≡ head.length) }
    ensures key_text { IfOk result (λ tree. tree.form.key_text ≡ head.text.items) }
{
    NdxTree::of_rising(alloc, head.length, head.text, &entries)
}

impl NdxTree {
    /// The tree that an index file of at most 64 MiB holds, built anew from its leaves.
    ///
    /// The bytes of page 0 that have no meaning, its number of pages, pages that the root doesn't lead to, and bytes of
    /// a page that nothing uses aren't judged. Where memory is missing, that may be told in place of a fault that would
    /// have been found later.
    pub fn read(alloc: Global, bytes: &[u8]) -> Result<NdxTree, TreeFault>
        requires { length bytes.now ≤ 67108864 }
        // What is read stands in the bytes.
        ensures read { IfOk result (λ tree. IsIndexFile bytes.now tree.form tree.pairs) }
        // What stands in the bytes is read, unless memory is missing.
        ensures only { (form : KeyForm) (pairs : List Pair) → IsIndexFile bytes.now form pairs
            → MatchResult result (λ tree. (tree.form ≡ form) × (tree.pairs ≡ pairs)) (λ fault. fault ≡ Memory) }
        // The first fault is told.
        ensures fault { IfErr result (IsFirstFault bytes.now) }
    {
        pages_are_told();
        let Ok(head) = read_head(bytes) else {
            return Err(TreeFault::Head);
        };
        let found = walk_pages(alloc, &head, bytes)?;
        if !is_in_order(&found) {
            return Err(TreeFault::Order);
        }
        let tree = tree_of(alloc, head, found.entries)?;
        Ok(tree)
    }

    /// The bytes of an index file of this tree, with 0 in each byte that has no meaning.
    ///
    /// Where memory is missing, the tree is as it was.
    pub fn write(&self, alloc: Global) -> Result<Vec<u8>, AllocError>
        ensures file { IfOk result (λ bytes. IsIndexFile bytes.items self.now.form self.now.pairs) }
        // No other list stands in the bytes: that is what reading them gives.
        ensures back { IfOk result (λ bytes. (form : KeyForm) (pairs : List Pair) → IsIndexFile bytes.items form pairs
            → (form ≡ self.now.form) × (pairs ≡ self.now.pairs)) }
        // The bytes are page 0 and whole pages, each reached from the root, half full but for the root, and with 0 in
        // each byte that has no meaning.
        ensures text { IfOk result (λ bytes. IsIndexText bytes.items self.now.form self.now.pairs) }
        // Page 0 tells how many pages there are.
        ensures pages { IfOk result (λ bytes. number_at 4 4 bytes.items ≡ page_count bytes.items) }
    {
        holds_one_list();
        let mut body = Vec::new(alloc);
        let plan = head_of(self.key_length, self.key_text.as_slice(), 0, 0);
        let root = self.root.write(&plan, 0, &mut body)?;
        let head = head_of(self.key_length, self.key_text.as_slice(), root, root + 1);
        let mut bytes = Vec::new(alloc);
        bytes.extend_from_slice(&write_head(&head))?;
        bytes.extend_from_slice(&body)?;
        Ok(bytes)
    }
}

// Page 0 of a file with such keys, this root, and so many pages.
fn head_of(key_length: usize, key_text: &[u8], root: u32, pages: u32) -> Head
    requires key_length { IsKeyLength key_length }
    requires short { length key_text.now ≤ 487 }
    requires no_zero { ¬ Contains key_text.now 0 }
    ensures length { result.length ≡ key_length }
    ensures text { result.text.items ≡ key_text.now }
    ensures root { result.root ≡ root }
    ensures pages { result.pages ≡ pages }
{
    Head {
        root,
        pages,
        length: key_length,
        text: held(key_text),
    }
}
