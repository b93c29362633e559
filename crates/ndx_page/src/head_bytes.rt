//! Page 0 of an index file as bytes.

ghost use Rattle.std.specs.Prelude.{◌≡◌, ◌≤◌, length, find, position, ◌==◌};
ghost use Rattle.std.specs.Prelude.{IfOk, MatchResult, Some, None, Ok};
ghost use Rattle.ndx_page.specs.declared.head.Head.{Head as TheHead};
ghost use Rattle.ndx_page.specs.HeadLayout.{IsHead, has_head_fault, head_faults, head_text};

use crate::head::{Head, HeadFault, MAX_TEXT};
use crate::layout::{MAX_KEY, PAGE_SIZE, entry_len, most_entries};
use crate::numbers::{
    Sheet, append, append_four, append_two, append_zeros, four_at, two_at, whole_page,
};
use arrayvec::ArrayVec;

/// The place of the root's number, four bytes.
const ROOT_PLACE: usize = 0;

/// The place of the number of pages, four bytes.
const PAGES_PLACE: usize = 4;

/// The place of the key length, two bytes.
const LENGTH_PLACE: usize = 12;

/// The place of the most entries of a page, two bytes.
const PER_PAGE_PLACE: usize = 14;

/// The place of the key type, two bytes.
const KIND_PLACE: usize = 16;

/// The place of the entry size, two bytes.
const SIZE_PLACE: usize = 18;

/// The place of the unique flag, one byte.
const UNIQUE_PLACE: usize = 23;

/// The place at which the key expression begins.
const TEXT_PLACE: usize = 24;

/// The place of the first zero byte.
fn end_of(bytes: &[u8]) -> Option<usize>
    ensures { result ≡ position (λ byte. byte == 0) bytes.now }
{
    bytes.iter().position(|byte| *byte == 0)
}

/// The key expression of these bytes.
fn key_text(bytes: &[u8]) -> ArrayVec<u8, MAX_TEXT>
    requires { length bytes.now ≤ 487 }
    ensures { result.items ≡ bytes.now }
{
    let mut text = ArrayVec::new();
    match text.try_extend_from_slice(bytes) {
        Ok(()) => text,
        Err(_) => unreachable!(),
    }
}

/// Page 0 of an index file, at the front of the file's bytes.
///
/// The bytes that follow page 0 are not read, nor those of page 0 that have no meaning. The number of pages is
/// told as it stands there, whatever the file's length.
pub fn read_head(bytes: &[u8]) -> Result<Head, HeadFault>
    // What is read stands in the bytes.
    ensures read { IfOk result (IsHead bytes.now) }
    // What stands in the bytes is read.
    ensures only { (head : TheHead) → IsHead bytes.now head → result ≡ Ok head }
    // The first fault is told, and only bytes without one are read.
    ensures fault { MatchResult result (λ _. find (has_head_fault bytes.now) head_faults ≡ None)
        (λ fault. find (has_head_fault bytes.now) head_faults ≡ Some fault) }
{
    if bytes.len() < PAGE_SIZE {
        return Err(HeadFault::Short);
    }
    if two_at(bytes, KIND_PLACE) != 0 {
        return Err(HeadFault::Kind);
    }
    if bytes[UNIQUE_PLACE] != 0 {
        return Err(HeadFault::Unique);
    }
    let length = usize::from(two_at(bytes, LENGTH_PLACE));
    if !(1..=MAX_KEY).contains(&length) {
        return Err(HeadFault::KeyLength);
    }
    if usize::from(two_at(bytes, SIZE_PLACE)) != entry_len(length) {
        return Err(HeadFault::EntrySize);
    }
    if usize::from(two_at(bytes, PER_PAGE_PLACE)) != most_entries(length) {
        return Err(HeadFault::PerPage);
    }
    let expression = &bytes[TEXT_PLACE..PAGE_SIZE];
    let Some(end) = end_of(expression) else {
        return Err(HeadFault::Expression);
    };
    Ok(Head {
        root: four_at(bytes, ROOT_PLACE),
        pages: four_at(bytes, PAGES_PLACE),
        length,
        text: key_text(&expression[..end]),
    })
}

/// Page 0 that says what the head has, with 0 in each byte that has no meaning.
pub fn write_head(head: &Head) -> [u8; PAGE_SIZE]
    ensures exact { result ≡ head_text head.now }
    // What is written reads as that head.
    ensures reads { IsHead result head.now }
{
    let mut sheet = Sheet::new();
    append_four(&mut sheet, head.root);
    append_four(&mut sheet, head.pages);
    append_zeros(&mut sheet, 4);
    append_two(&mut sheet, head.length as u16);
    append_two(&mut sheet, most_entries(head.length) as u16);
    append_two(&mut sheet, 0);
    append_two(&mut sheet, entry_len(head.length) as u16);
    append_zeros(&mut sheet, 4);
    append(&mut sheet, &head.text);
    whole_page(sheet)
}
