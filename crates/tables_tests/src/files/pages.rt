//! Pages that were laid out by hand, and each fault once.

ghost use Rattle.std.specs.Prelude.{◌≤◌, length};

use crate::files::bytes::set;
use arrayvec::ArrayVec;
use ndx_page::{
    Head, HeadFault, PAGE_SIZE, Page, PageEntry, PageFault, most_entries, read_head, read_page,
    write_head, write_page,
};

/// Page 0 of an index on `NAME`, ten bytes wide: the root is page 1 of 2.
fn plain_head() -> [u8; PAGE_SIZE] {
    let mut bytes = [0; PAGE_SIZE];
    bytes[0] = 1;
    bytes[4] = 2;
    bytes[12] = 10;
    bytes[14] = 25;
    bytes[18] = 20;
    bytes[24..28].copy_from_slice(b"NAME");
    bytes
}

/// The head of a file with keys of this length.
fn head_of(length: usize) -> Head
    requires some { 1 ≤ length }
    requires short { length ≤ 100 }
{
    Head {
        root: 1,
        pages: 2,
        length,
        text: ArrayVec::new(),
    }
}

/// A leaf of keys of two bytes: record 3 with `AB`, record 7 with `CD`.
fn plain_leaf() -> [u8; PAGE_SIZE] {
    let mut bytes = [0; PAGE_SIZE];
    bytes[0] = 2;
    bytes[8] = 3;
    bytes[12..14].copy_from_slice(b"AB");
    bytes[20] = 7;
    bytes[24..26].copy_from_slice(b"CD");
    bytes
}

/// An inner page of keys of two bytes: child 5, `AB`, child 6, `CD`, child 0x0102.
fn plain_inner() -> [u8; PAGE_SIZE] {
    let mut bytes = plain_leaf();
    bytes[4] = 5;
    bytes[8] = 0;
    bytes[16] = 6;
    bytes[20] = 0;
    bytes[28] = 2;
    bytes[29] = 1;
    bytes
}

fn entry(child: u32, number: u32, key: &[u8; 2]) -> PageEntry {
    let mut bytes = ArrayVec::new();
    let _ = bytes.try_extend_from_slice(key);
    PageEntry {
        child,
        number,
        key: bytes,
    }
}

fn page(first: PageEntry, second: PageEntry, last: u32) -> Page {
    let mut entries = ArrayVec::new();
    entries.push(first);
    entries.push(second);
    Page { entries, last }
}

/// Whether a page has at the most so many keys of each of these lengths.
fn most_keys_of_a_page() -> bool {
    for (length, most) in [(1, 42), (4, 42), (5, 31), (10, 25), (12, 25), (100, 4)] {
        if length > 100 || most_entries(length) != most {
            return false;
        }
    }
    true
}

fn head_both_ways() -> bool {
    let bytes = plain_head();
    match read_head(&bytes) {
        Ok(head) => {
            (head.root, head.pages, head.length) == (1, 2, 10)
                && head.text.as_slice() == b"NAME".as_slice()
                && write_head(&head) == bytes
        }
        Err(_) => false,
    }
}

/// Page 0 with this key expression and what stands behind it.
fn with_expression(expression: &[u8; 488]) -> [u8; PAGE_SIZE] {
    let mut bytes = plain_head();
    bytes[24..].copy_from_slice(expression);
    bytes
}

/// A place of page 0, the byte that is put there, and the fault that is told.
fn faults_of_heads() -> [(usize, u8, HeadFault); 10] {
    [
        (16, 1, HeadFault::Kind),
        (17, 1, HeadFault::Kind),
        (23, 1, HeadFault::Unique),
        (12, 0, HeadFault::KeyLength),
        (12, 101, HeadFault::KeyLength),
        (13, 1, HeadFault::KeyLength),
        (18, 18, HeadFault::EntrySize),
        (19, 1, HeadFault::EntrySize),
        (14, 24, HeadFault::PerPage),
        (15, 1, HeadFault::PerPage),
    ]
}

/// Whether page 0 has this fault.
fn has_fault(bytes: &[u8], fault: HeadFault) -> bool {
    read_head(bytes).err() == Some(fault)
}

/// The place of the first line of the table whose fault isn't told.
fn first_untold_of_heads(lines: &[(usize, u8, HeadFault)]) -> Option<usize> {
    for (line, (place, byte, fault)) in lines.iter().enumerate() {
        let mut bytes = plain_head();
        set(&mut bytes, *place, *byte);
        if !has_fault(&bytes, *fault) {
            return Some(line);
        }
    }
    None
}

/// Whether a key expression is read as a text of this length.
fn has_length(expression: &[u8; 488], length: usize) -> bool {
    match read_head(&with_expression(expression)) {
        Ok(head) => head.text.len() == length,
        Err(_) => false,
    }
}

fn head_expression() -> bool {
    let mut expression = [7; 488];
    let endless = has_fault(&with_expression(&expression), HeadFault::Expression);
    expression[487] = 0;
    let longest = has_length(&expression, 487);
    expression[0] = 0;
    endless && longest && has_length(&expression, 0)
}

/// Whether the page is written as these bytes, and read of them.
fn is_page(page: Page, bytes: &[u8; PAGE_SIZE]) -> bool {
    let head = head_of(2);
    write_page(&head, &page) == *bytes && read_page(&head, bytes) == Ok(page)
}

/// Whether a page is read with so many entries and this last child.
fn is_read_with(bytes: &[u8; PAGE_SIZE], entries: usize, last: u32) -> bool {
    match read_page(&head_of(2), bytes) {
        Ok(page) => page.entries.len() == entries && page.last == last,
        Err(_) => false,
    }
}

/// The bytes at the place of the last child aren't tested in a leaf.
fn leaves_both_ways() -> bool {
    let leaf = page(entry(0, 3, b"AB"), entry(0, 7, b"CD"), 0);
    let mut bytes = plain_leaf();
    bytes[28] = 9;
    is_page(leaf, &plain_leaf()) && is_read_with(&bytes, 2, 0)
}

fn inner_pages_both_ways() -> bool {
    let inner = page(entry(5, 0, b"AB"), entry(6, 0, b"CD"), 0x0102);
    is_page(inner, &plain_inner())
}

/// A page without entries has one child, or none.
fn pages_without_entries() -> bool {
    let mut bytes = [0; PAGE_SIZE];
    let none = is_read_with(&bytes, 0, 0);
    bytes[4] = 9;
    none && is_read_with(&bytes, 0, 9)
}

/// The two bytes that are put at the places of a page, and the fault that is told.
type Changed = ((usize, u8), (usize, u8), PageFault);

fn faults_of_leaves() -> [Changed; 7] {
    [
        ((0, 43), (0, 43), PageFault::Count),
        ((3, 1), (3, 1), PageFault::Count),
        ((16, 1), (16, 1), PageFault::Child),
        ((4, 1), (4, 1), PageFault::Child),
        ((8, 0), (8, 0), PageFault::Record),
        ((20, 0), (20, 0), PageFault::Record),
        // A leaf with another child and record 0 has the first fault.
        ((8, 0), (16, 1), PageFault::Child),
    ]
}

fn faults_of_inner_pages() -> [Changed; 2] {
    [
        ((16, 0), (16, 0), PageFault::Child),
        ((28, 0), (29, 0), PageFault::Child),
    ]
}

/// The place of the first line of the table whose fault isn't told of the page.
fn first_untold(page: &[u8; PAGE_SIZE], lines: &[Changed]) -> Option<usize> {
    for (line, (first, second, fault)) in lines.iter().enumerate() {
        let mut bytes = *page;
        set(&mut bytes, first.0, first.1);
        set(&mut bytes, second.0, second.1);
        if read_page(&head_of(2), &bytes).err() != Some(*fault) {
            return Some(line);
        }
    }
    None
}

#[test]
fn heads_and_pages(rt: HostRuntime) {
    assert!(rt; most_keys_of_a_page() && head_both_ways() && head_expression());
    assert_eq!(rt; first_untold_of_heads(&faults_of_heads()), None);
    // Of all faults but the first the second is told.
    assert!(rt; has_fault(&[0; PAGE_SIZE - 1], HeadFault::Short));
    assert!(rt; has_fault(&[1; PAGE_SIZE], HeadFault::Kind));
    assert!(rt; leaves_both_ways() && inner_pages_both_ways() && pages_without_entries());
    assert_eq!(rt; first_untold(&plain_leaf(), &faults_of_leaves()), None);
    assert_eq!(rt;
        first_untold(&plain_inner(), &faults_of_inner_pages()),
        None
    );
}

/// Whether a page that is read of these bytes is read again of what is written of it.
fn page_comes_back(bytes: &[u8; PAGE_SIZE]) -> bool {
    let head = head_of(2);
    match read_page(&head, bytes) {
        Ok(page) => read_page(&head, &write_page(&head, &page)) == Ok(page),
        Err(_) => true,
    }
}

/// The same of page 0.
fn head_comes_back(bytes: &[u8; PAGE_SIZE]) -> bool {
    match read_head(bytes) {
        Ok(head) => read_head(&write_head(&head)) == Ok(head),
        Err(_) => true,
    }
}

/// The page with one byte changed in the bits of `change`.
fn with_bits(page: [u8; PAGE_SIZE], place: usize, change: u8) -> [u8; PAGE_SIZE] {
    let mut bytes = page;
    if let Some(byte) = bytes.get_mut(place) {
        *byte ^= change;
    }
    bytes
}

#[test]
fn each_byte_changed(rt: HostRuntime) {
    for place in 0..PAGE_SIZE {
        for change in [1, 0x80, 0xff] {
            assert!(rt; page_comes_back(&with_bits(plain_inner(), place, change)));
        }
        assert!(rt;
            head_comes_back(&with_bits(plain_head(), place, 0xff)),
            "byte {place}"
        );
    }
}
