//! The pages of a tree as bytes.

ghost use Rattle.std.specs.Prelude.{◌≡◌, ◌+◌, ◌*◌, ◌<◌, ◌≤◌, ◌^◌, length, IfOk};
ghost use Rattle.std.specs.Vec.{vec_len};
ghost use Rattle.ndx_page.specs.PageLayout.{FitsKeys};
ghost use Rattle.ndx_page.specs.Layout.{most_entries};
ghost use Rattle.key_lists.specs.Order.{Each};
ghost use Rattle.key_lists.specs.KeyForm.{IsPairOf};
ghost use Rattle.ndx_tree.specs.IndexFile.{leaf_pairs};
ghost use Rattle.ndx_tree.specs.Writes.{IsWritten, IsAppended, IsPageText};

use crate::page::TreePage;
use arrayvec::ArrayVec;
use key_lists::held;
use key_rows::Entries;
use ndx_page::{Head, write_page};
use std::alloc::AllocError;

// The leaf of these pairs, at most 42 of them.
fn leaf_of(entries: &Entries) -> ndx_page::Page
    requires { length entries.now.items ≤ 42 }
    ensures pairs { leaf_pairs result.entries.items ≡ entries.now.items }
    ensures children { Each (λ e. e.child ≡ 0) result.entries.items }
    ensures last { result.last ≡ 0 }
    ensures count { length result.entries.items ≡ length entries.now.items }
{
    let mut page = ndx_page::Page {
        entries: ArrayVec::new(),
        last: 0,
    };
    for at in 0..entries.len() {
        page.entries.push(ndx_page::PageEntry {
            child: 0,
            number: entries.number(at),
            key: held(entries.key(at)),
        });
    }
    page
}

// Appends a page behind so many, and answers its number.
fn append_page(
    head: &Head,
    page: &ndx_page::Page,
    pages: u32,
    body: &mut Vec<u8>,
) -> Result<u32, AllocError>
    requires room { pages + 1 < 2 ^ 32 }
    requires start { vec_len body.old ≡ pages * 512 }
    requires fits { FitsKeys head.now.length page.now }
    ensures text { IfOk result (λ _. IsAppended head.now.length body.old.items body.new.items page.now) }
    ensures number { IfOk result (λ n. n ≡ pages + 1) }
    ensures end { IfOk result (λ n. vec_len body.new ≡ n * 512) }
{
    body.extend_from_slice(&write_page(head, page))?;
    Ok(pages + 1)
}

// The key between a child that was written and the next.
fn between(child: u32, key: &[u8]) -> ndx_page::PageEntry
    requires { length key.now ≤ 100 }
    ensures child { result.child ≡ child }
    ensures key { result.key.items ≡ key.now }
    ensures number { result.number ≡ 0 }
{
    ndx_page::PageEntry {
        child,
        number: 0,
        key: held(key),
    }
}

impl TreePage {
    /// Writes the page behind what is below it, in a file of this head that has so many pages behind page 0. The
    /// answer is the page's number, which is how many there are then.
    pub fn write(&self, head: &Head, pages: u32, body: &mut Vec<u8>) -> Result<u32, AllocError>
        requires inner { 1 < self.now.height → 0 < self.now.count }
        requires most { self.now.most ≡ most_entries head.now.length }
        requires keys { Each (IsPairOf head.now.length) self.now.pairs }
        requires room { pages + length self.now.pairs < 2 ^ 32 }
        requires next { pages + 1 < 2 ^ 32 }
        requires start { vec_len body.old ≡ pages * 512 }
        ensures written { IfOk result (λ n. IsWritten head.now.length pages n body.new.items self.now) }
        ensures text { IfOk result (λ n. IsPageText head.now.length pages n body.old.items body.new.items
            self.now.count) }
        ensures end { IfOk result (λ n. vec_len body.new ≡ n * 512) }
        ensures later { IfOk result (λ n. pages < n) }
        ensures few { IfOk result (λ n. 2 ≤ length self.now.pairs → n + 1 ≤ pages + length self.now.pairs) }
        ensures fits { IfOk result (λ n. n ≤ pages + length self.now.pairs + 1) }
    {
        if self.children.is_empty() {
            let own = append_page(head, &leaf_of(&self.entries), pages, body)?;
            return Ok(own);
        }
        let entries = &self.entries;
        let children = self.children.as_slice();
        let mut page = ndx_page::Page {
            entries: ArrayVec::new(),
            last: 0,
        };
        let mut number = pages;
        for at in 0..entries.len() {
            let child = children[at].write(head, number, body)?;
            page.entries.push(between(child, entries.key(at)));
            number = child;
        }
        page.last = children[entries.len()].write(head, number, body)?;
        let own = append_page(head, &page, page.last, body)?;
        Ok(own)
    }
}
