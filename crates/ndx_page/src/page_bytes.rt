//! A page of entries as bytes.

ghost use Rattle.std.specs.Prelude.{◌≡◌, ◌+◌, ◌^◌, ◌<◌, ◌≤◌, ◌++◌, length, find, not, ◌==◌, IfOk, MatchResult};
ghost use Rattle.std.specs.Prelude.{Some, None, Ok};
ghost use Rattle.std.specs.List.{list_any};
ghost use Rattle.arrayvec.specs.ArrayVec.{array_vec_len};
ghost use Rattle.ndx_page.specs.declared.page.Page.{Page as ThePage};
ghost use Rattle.ndx_page.specs.Layout.{entry_size, most_entries as most_of};
ghost use Rattle.ndx_page.specs.PageLayout.{FitsKeys, IsPage, entry_at, entries_at, has_page_fault, page_faults};
ghost use Rattle.ndx_page.specs.PageLayout.{entry_text, page_text};

use crate::head::Head;
use crate::layout::{MAX_ENTRIES, PAGE_SIZE, entry_len, most_entries};
use crate::numbers::{Sheet, append, append_four, append_zeros, four_at, whole_page};
use crate::page::{Page, PageEntry, PageFault};
use arrayvec::ArrayVec;

/// The entry that stands at `place`, with a key of `key_length` bytes.
#[tactic(auto, unfolding(crate::specs::PageLayout::entry_at))]
fn entry_of(key_length: usize, place: usize, bytes: &[u8]) -> PageEntry
    requires short { key_length ≤ 100 }
    requires room { place + 8 + key_length ≤ length bytes.now }
    ensures { result ≡ entry_at key_length place bytes.now }
{
    let mut key = ArrayVec::new();
    match key.try_extend_from_slice(&bytes[place + 8..place + 8 + key_length]) {
        Ok(()) => PageEntry {
            child: four_at(bytes, place),
            number: four_at(bytes, place + 4),
            key,
        },
        Err(_) => unreachable!(),
    }
}

/// The first `count` entries of a page.
fn entries_of(
    key_length: usize,
    count: usize,
    bytes: &[u8; PAGE_SIZE],
) -> ArrayVec<PageEntry, MAX_ENTRIES>
    requires some { 1 ≤ key_length }
    requires short { key_length ≤ 100 }
    requires room { count ≤ most_of key_length }
    ensures { result.items ≡ entries_at key_length count 4 bytes.now }
{
    let size = entry_len(key_length);
    let mut entries = ArrayVec::new();
    for index in 0..count {
        entries.push(entry_of(key_length, 4 + index * size, bytes));
    }
    entries
}

/// Whether some entry has a child.
fn any_child(entries: &[PageEntry]) -> bool
    ensures { result ≡ list_any (λ e. not (e.child == 0)) entries.now }
{
    entries.iter().any(|entry| entry.child != 0)
}

/// Whether some entry has no child.
fn any_childless(entries: &[PageEntry]) -> bool
    ensures { result ≡ list_any (λ e. e.child == 0) entries.now }
{
    entries.iter().any(|entry| entry.child == 0)
}

/// Whether some entry has no record.
fn any_recordless(entries: &[PageEntry]) -> bool
    ensures { result ≡ list_any (λ e. e.number == 0) entries.now }
{
    entries.iter().any(|entry| entry.number == 0)
}

/// The page that 512 bytes hold, in a file of this head.
///
/// The bytes that pad a key, the child after the entries of a leaf, and all bytes after the last child aren't read.
pub fn read_page(head: &Head, bytes: &[u8; PAGE_SIZE]) -> Result<Page, PageFault>
    // What is read stands in the bytes.
    ensures read { IfOk result (IsPage head.now.length bytes.now) }
    // What stands in the bytes is read.
    ensures only { (page : ThePage) → IsPage head.now.length bytes.now page → result ≡ Ok page }
    // The first fault is told, and only bytes without one are read.
    ensures fault { MatchResult result (λ _. find (has_page_fault head.now.length bytes.now) page_faults ≡ None)
        (λ fault. find (has_page_fault head.now.length bytes.now) page_faults ≡ Some fault) }
{
    let count = four_at(bytes, 0) as usize;
    if count > most_entries(head.length) {
        return Err(PageFault::Count);
    }
    let entries = entries_of(head.length, count, bytes);
    if four_at(bytes, 4) == 0 {
        if any_child(&entries) {
            return Err(PageFault::Child);
        }
        if any_recordless(&entries) {
            return Err(PageFault::Record);
        }
        return Ok(Page { entries, last: 0 });
    }
    let last = four_at(bytes, 4 + count * entry_len(head.length));
    if last == 0 || any_childless(&entries) {
        return Err(PageFault::Child);
    }
    Ok(Page { entries, last })
}

/// Writes an entry behind what is written: its numbers, the first bytes of its key, and zeros.
fn append_entry(sheet: &mut Sheet, key_length: usize, entry: &PageEntry)
    requires short { key_length ≤ 100 }
    requires room { array_vec_len sheet.old + entry_size key_length ≤ 512 }
    ensures items { sheet.new.items ≡ sheet.old.items ++ entry_text key_length entry.now }
    ensures len { array_vec_len sheet.new ≡ array_vec_len sheet.old + entry_size key_length }
    ensures fits { (entry.now.child < 2 ^ 32) × (entry.now.number < 2 ^ 32) }
{
    append_four(sheet, entry.child);
    append_four(sheet, entry.number);
    let shown = entry.key.len().min(key_length);
    append(sheet, &entry.key[..shown]);
    append_zeros(sheet, entry_len(key_length) - 8 - shown);
}

/// The 512 bytes of a page in a file of this head, with 0 in each byte that has no meaning.
///
/// A page with more entries or longer keys isn't one of such a file: the entries and the bytes of keys that there is no
/// room for are left out.
pub fn write_page(head: &Head, page: &Page) -> [u8; PAGE_SIZE]
    ensures exact { result ≡ page_text head.now.length page.now }
    // What is written reads as that page.
    ensures reads { FitsKeys head.now.length page.now → IsPage head.now.length result page.now }
{
    let shown = page.entries.len().min(most_entries(head.length));
    let mut sheet = Sheet::new();
    append_four(&mut sheet, shown as u32);
    for entry in &page.entries[..shown] {
        append_entry(&mut sheet, head.length, entry);
    }
    append_four(&mut sheet, page.last);
    whole_page(sheet)
}
