// Trees of pages beside sorted vectors, and index files byte for byte. Each call that takes memory is tried again where
// it is refused, so that these tests also run with any one allocation refused.

ghost use Rattle.key_lists.specs.KeyForm.{IsKeyLength};

use crate::files::bytes::set;
use crate::files::lists::{first_difference, has_number, put};
use key_lists::{Entry, KeyList, SortedKeys};
use ndx_tree::{NdxTree, TreeFault};
use std::alloc::{AllocError, Global};
use std::test::Fail;

const PAGE: usize = 512;

fn empty_tree(alloc: Global, key_length: usize) -> Result<NdxTree, AllocError>
    requires { IsKeyLength key_length }
{
    match NdxTree::rebuild(alloc, key_length, b"K", Vec::new(alloc)) {
        Ok(tree) => Ok(tree),
        Err(_) => NdxTree::rebuild(alloc, key_length, b"K", Vec::new(alloc)),
    }
}

fn empty_vector(alloc: Global, key_length: usize) -> Result<SortedKeys, AllocError>
    requires { IsKeyLength key_length }
{
    SortedKeys::rebuild(alloc, key_length, b"K", Vec::new(alloc))
}

fn written(tree: &NdxTree, alloc: Global) -> Result<Vec<u8>, AllocError> {
    match tree.write(alloc) {
        Ok(bytes) => Ok(bytes),
        Err(_) => tree.write(alloc),
    }
}

// What is read of bytes that aren't many.
fn read(alloc: Global, bytes: &[u8]) -> Result<NdxTree, TreeFault> {
    if bytes.len() > 1_000_000 {
        return Err(TreeFault::Memory);
    }
    match NdxTree::read(alloc, bytes) {
        Err(TreeFault::Memory) => NdxTree::read(alloc, bytes),
        answer => answer,
    }
}

fn fault_of(alloc: Global, bytes: &[u8]) -> Option<TreeFault> {
    read(alloc, bytes).err()
}

fn is_same(one: &Option<Entry>, other: &Option<Entry>) -> bool {
    match (one, other) {
        (None, None) => true,
        (Some(one), Some(other)) => one.key() == other.key() && one.number() == other.number(),
        _ => false,
    }
}

// Whether two lists have the same pairs in the same order.
fn have_same_pairs<K: KeyList>(tree: &mut NdxTree, list: &mut K) -> bool {
    let mut left = tree.first();
    let mut right = list.first();
    for _turn in 0..tree.len() {
        if !is_same(&left, &right) {
            return false;
        }
        if let Some(entry) = &left {
            right = list.after(entry.key(), entry.number());
            left = tree.after(entry.key(), entry.number());
        }
    }
    is_same(&left, &right)
}

// Whether an empty tree answers as a plain list does.
fn is_plain(tree: &mut NdxTree) -> Result<bool, AllocError> {
    let empty = tree.len() == 0 && tree.height() == 1;
    let none = tree.first().is_none() && tree.last().is_none();
    Ok(empty && none && first_difference(tree)?.is_none())
}

// Puts pairs of one key in. Whether all could be put in.
fn put_all<K: KeyList>(list: &mut K, key: &[u8], numbers: &[u32]) -> Result<bool, AllocError> {
    let mut all = true;
    for number in numbers {
        all = put(list, key, *number)? && all;
    }
    Ok(all)
}

// Whether from each record of one key the next one and the one before are found.
fn are_neighbours(tree: &mut NdxTree, key: &[u8], numbers: &[u32]) -> bool {
    let mut all = true;
    for number in numbers {
        let next = number.saturating_add(1);
        all = all
            && has_number(&tree.after(key, *number), next)
            && has_number(&tree.before(key, next), *number);
    }
    all
}

// Whether each pair goes out once.
fn go_out(tree: &mut NdxTree, key: &[u8], numbers: &[u32]) -> bool {
    let mut all = true;
    for number in numbers {
        all = tree.remove(key, *number) && !tree.remove(key, *number) && all;
    }
    all
}

fn has_size(tree: &mut NdxTree, pairs: usize, height: usize) -> bool {
    tree.len() == pairs && tree.height() == height
}

// A key of a hundred bytes, all the same.
fn long_key() -> [u8; 100] {
    [b'K'; 100]
}

// Whether an empty tree grows and shrinks.
fn grows(tree: &mut NdxTree, key: &[u8]) -> Result<bool, AllocError> {
    let grown = put_all(tree, key, &[3, 1, 5, 2, 4])? && has_size(tree, 5, 2);
    let ends = has_number(&tree.first(), 1) && has_number(&tree.last(), 5);
    let between = are_neighbours(tree, key, &[1, 2, 3, 4]);
    Ok(grown && ends && between && go_out(tree, key, &[5, 2, 1, 4, 3]) && has_size(tree, 0, 1))
}

// Whether a search found the record, and looked at so many pages.
fn found_in(tree: &NdxTree, found: &Option<Entry>, number: u32, pages: usize) -> bool {
    has_number(found, number) && tree.pages_seen() == pages
}

// Whether each search in the tree below looks at two pages.
fn looks_at_two(tree: &mut NdxTree, key: &[u8]) -> bool {
    let first = tree.first_from(b"SM");
    let mut all = found_in(tree, &first, 1, 2);
    let next = tree.after(key, 29);
    all = all && found_in(tree, &next, 30, 2);
    let before = tree.before(key, 2);
    all = all && found_in(tree, &before, 1, 2);
    let last = tree.last();
    all && found_in(tree, &last, 30, 2)
}

// Whether a search among thirty records of one key looks at one page a level.
fn looks_at_one_page(tree: &mut NdxTree, key: &[u8]) -> Result<bool, AllocError> {
    for number in 1..31 {
        if !put(tree, key, number)? {
            return Ok(false);
        }
    }
    Ok(tree.height() == 2 && looks_at_two(tree, key))
}

#[test]
fn trees_grow_and_are_searched(rt: HostRuntime) -> Result<(), Fail> {
    let mut plain = empty_tree(rt.alloc(), 2)?;
    assert!(rt; is_plain(&mut plain)?);
    let mut tree = empty_tree(rt.alloc(), 100)?;
    assert!(rt; grows(&mut tree, &long_key())?);
    let mut smiths = empty_tree(rt.alloc(), 10)?;
    assert!(rt; looks_at_one_page(&mut smiths, b"SMITH     ")?);
    Ok(())
}

// The next of a long row of numbers that look random.
fn next_of(seed: u32) -> u32 {
    seed.wrapping_mul(1_664_525).wrapping_add(1_013_904_223)
}

// One of 48 keys that differ at both ends.
fn key_of(seed: u32) -> [u8; 100] {
    let mut key = [b' '; 100];
    key[0] = b'A' + ((seed >> 24) % 6) as u8;
    key[99] = ((seed >> 16) % 8) as u8;
    key
}

// Whether both lists answer the same from a key with a record number, and the tree looks at one page a level.
fn answer_same(tree: &mut NdxTree, list: &mut SortedKeys, key: &[u8; 100], number: u32) -> bool {
    let height = tree.height();
    tree.len() == list.len()
        && is_same(&tree.first(), &list.first())
        && is_same(&tree.last(), &list.last())
        && is_same(&tree.first_from(&key[..1]), &list.first_from(&key[..1]))
        && is_same(&tree.first_from(&key[..]), &list.first_from(&key[..]))
        && is_same(&tree.after(&key[..], number), &list.after(&key[..], number))
        && tree.pages_seen() == height
        && is_same(
            &tree.before(&key[..], number),
            &list.before(&key[..], number),
        )
        && tree.pages_seen() == height
}

// Makes the same calls on both lists, more insertions than removals at first and fewer at last. The number of the turn
// at which they first answer otherwise, and the greatest height.
fn compare(tree: &mut NdxTree, list: &mut SortedKeys) -> Result<(Option<u32>, usize), AllocError> {
    let mut seed = 1;
    let mut highest = 0;
    for turn in 0..1600u32 {
        seed = next_of(seed);
        let key = key_of(seed);
        let number = (seed >> 8) % 5 + 1;
        let takes = (seed >> 28) % 4 < turn / 400;
        let agrees = if takes {
            tree.remove(&key, number) == list.remove(&key, number)
        } else {
            put(tree, &key, number)? == put(list, &key, number)?
        };
        highest = highest.max(tree.height());
        if !agrees || !answer_same(tree, list, &key, number) {
            return Ok((Some(turn), highest));
        }
    }
    Ok((None, highest))
}

// Whether the tree, written and read again, has the pairs of the list.
fn comes_back(alloc: Global, tree: &NdxTree, list: &mut SortedKeys) -> Result<bool, AllocError> {
    let bytes = written(tree, alloc)?;
    match read(alloc, &bytes) {
        Err(_) => Ok(false),
        Ok(mut again) => Ok(have_same_pairs(&mut again, list)),
    }
}

// Whether both lists answer the same, and the tree grows and comes back.
fn is_sorted(alloc: Global, tree: &mut NdxTree, list: &mut SortedKeys) -> Result<bool, AllocError> {
    let (difference, highest) = compare(tree, list)?;
    let same = difference.is_none() && highest >= 4 && have_same_pairs(tree, list);
    Ok(same && comes_back(alloc, tree, list)?)
}

#[test]
fn answers_as_a_sorted_vector(rt: HostRuntime) -> Result<(), Fail> {
    let mut tree = empty_tree(rt.alloc(), 100)?;
    let mut list = empty_vector(rt.alloc(), 100)?;
    assert!(rt; is_sorted(rt.alloc(), &mut tree, &mut list)?);
    Ok(())
}

// The tree of three rows.
fn three(alloc: Global) -> Result<NdxTree, AllocError> {
    let mut tree = empty_tree(alloc, 1)?;
    put(&mut tree, b"Z", 1)?;
    put(&mut tree, b"B", 2)?;
    put(&mut tree, b"C", 3)?;
    Ok(tree)
}

fn head() -> [u8; 26] {
    [
        1, 0, 0, 0, 2, 0, 0, 0, 0, 0, 0, 0, 1, 0, 42, 0, 0, 0, 12, 0, 0, 0, 0, 0, b'K', 0,
    ]
}

fn leaf() -> [u8; 44] {
    [
        3, 0, 0, 0, 0, 0, 0, 0, 2, 0, 0, 0, b'B', 0, 0, 0, 0, 0, 0, 0, 3, 0, 0, 0, b'C', 0, 0, 0,
        0, 0, 0, 0, 1, 0, 0, 0, b'Z', 0, 0, 0, 0, 0, 0, 0,
    ]
}

// Whether a page is these bytes and zeros.
fn is_page(page: &[u8], front: &[u8]) -> bool {
    match page.strip_prefix(front) {
        Some(rest) => rest.iter().all(|byte| *byte == 0),
        None => false,
    }
}

// Whether the bytes are the index file of the three rows.
fn is_file_of_three(bytes: &[u8]) -> bool {
    match bytes.split_at_checked(PAGE) {
        Some((first, second)) => {
            second.len() == PAGE && is_page(first, &head()) && is_page(second, &leaf())
        }
        None => false,
    }
}

// Whether the bytes are read as the tree of the three rows.
fn reads_as_three(alloc: Global, bytes: &[u8]) -> bool {
    match read(alloc, bytes) {
        Err(_) => false,
        Ok(mut tree) => {
            tree.key_length() == 1
                && tree.key_text() == b"K".as_slice()
                && has_size(&mut tree, 3, 1)
                && has_number(&tree.first(), 2)
                && has_number(&tree.last(), 1)
        }
    }
}

// Changes of that file, each a place and the byte that is put there, and what is told.
fn changes() -> [(&'static [(usize, u8)], TreeFault); 9] {
    [
        (&[(16, 1)], TreeFault::Head),
        (&[(0, 0)], TreeFault::Reach),
        (&[(0, 2)], TreeFault::Reach),
        // an inner page whose two children are the page itself
        (&[(512, 1), (516, 1), (528, 1)], TreeFault::Reach),
        // more entries than there may be, and a leaf with record 0
        (&[(512, 43)], TreeFault::Page),
        (&[(520, 0)], TreeFault::Page),
        // a first child that is no page is judged after the page
        (&[(512, 1), (516, 9), (528, 0)], TreeFault::Page),
        (&[(524, b'D')], TreeFault::Order),
        (&[(536, b'B'), (532, 2)], TreeFault::Order),
    ]
}

// The file of the tree with these changes.
fn changed(alloc: Global, tree: &NdxTree, edits: &[(usize, u8)]) -> Result<Vec<u8>, AllocError> {
    let mut bytes = written(tree, alloc)?;
    for (place, byte) in edits {
        set(&mut bytes, *place, *byte);
    }
    Ok(bytes)
}

// The place of the first line of the table whose fault isn't told.
fn first_untold(
    alloc: Global,
    tree: &NdxTree,
    changes: &[(&'static [(usize, u8)], TreeFault)],
) -> Result<Option<usize>, AllocError> {
    for (line, (edits, fault)) in changes.iter().enumerate() {
        let bytes = changed(alloc, tree, edits)?;
        if fault_of(alloc, &bytes) != Some(*fault) {
            return Ok(Some(line));
        }
    }
    Ok(None)
}

// Whether the tree of three rows is written byte for byte, and each fault of its file is told.
fn is_written(alloc: Global, tree: &NdxTree) -> Result<bool, AllocError> {
    let bytes = written(tree, alloc)?;
    let file = is_file_of_three(&bytes) && reads_as_three(alloc, &bytes);
    Ok(file && first_untold(alloc, tree, changes().as_slice())?.is_none())
}

#[test]
fn three_rows(rt: HostRuntime) -> Result<(), Fail> {
    let tree = three(rt.alloc())?;
    assert!(rt; is_written(rt.alloc(), &tree)?);
    Ok(())
}

fn chain(alloc: Global, pages: u8) -> Result<Vec<u8>, AllocError> {
    match chain_once(alloc, pages) {
        Ok(bytes) => Ok(bytes),
        Err(_) => chain_once(alloc, pages),
    }
}

// Appends a page of these bytes and zeros.
fn push_page(file: &mut Vec<u8>, front: &[u8]) -> Result<(), AllocError> {
    file.extend_from_slice(front)?;
    for _rest in front.len()..PAGE {
        file.push(0)?;
    }
    Ok(())
}

// A file of pages without entries, each the parent of the next, so many in all: the last is an empty leaf.
fn chain_once(alloc: Global, pages: u8) -> Result<Vec<u8>, AllocError> {
    let mut bytes = Vec::new(alloc);
    push_page(&mut bytes, &head())?;
    for page in 1..pages {
        push_page(&mut bytes, &[0, 0, 0, 0, page + 1, 0, 0, 0])?;
    }
    push_page(&mut bytes, &[])?;
    Ok(bytes)
}

fn is_empty(alloc: Global, bytes: &[u8]) -> bool {
    match read(alloc, bytes) {
        Ok(mut tree) => has_size(&mut tree, 0, 1),
        Err(_) => false,
    }
}

#[test]
fn twenty_pages_deep(rt: HostRuntime) -> Result<(), Fail> {
    let bytes = chain(rt.alloc(), 20)?;
    let deeper = chain(rt.alloc(), 21)?;
    let fault = fault_of(rt.alloc(), &deeper);
    assert!(rt; is_empty(rt.alloc(), &bytes) && fault == Some(TreeFault::Depth));
    Ok(())
}

// Whether a byte of the file below has no meaning: in page 0, in its two leaves of two and three entries of 108 bytes,
// and in its root of one entry and two children.
fn is_free(place: usize) -> bool {
    let at = place % PAGE;
    match place / PAGE {
        0 => (4..12).contains(&at) || (20..23).contains(&at) || at > 25,
        1 => at >= 220,
        2 => at >= 328,
        _ => (8..12).contains(&at) || at >= 116,
    }
}

// Whether the bytes are read as a tree of that key text and with those pairs.
fn says_the_same(alloc: Global, bytes: &[u8], tree: &mut NdxTree) -> bool {
    match read(alloc, bytes) {
        Err(_) => false,
        Ok(mut other) => {
            other.key_text() == tree.key_text() && have_same_pairs(&mut other, tree)
        }
    }
}

// The first byte of the file that says something and should not, or says nothing and should.
fn first_wrong_byte(alloc: Global, bytes: &mut [u8], tree: &mut NdxTree) -> Option<usize> {
    for place in 0..bytes.len() {
        let old = bytes[place];
        bytes[place] = old ^ 1;
        let kept = says_the_same(alloc, bytes, tree);
        bytes[place] = old;
        if kept != is_free(place) {
            return Some(place);
        }
    }
    None
}

// A tree of five records of one long key.
fn five(alloc: Global) -> Result<NdxTree, AllocError> {
    let mut tree = empty_tree(alloc, 100)?;
    put_all(&mut tree, &long_key(), &[1, 2, 3, 4, 5])?;
    Ok(tree)
}

fn counts_each_byte(alloc: Global, tree: &mut NdxTree) -> Result<bool, AllocError> {
    let mut bytes = written(tree, alloc)?;
    let long = bytes.len() == 4 * PAGE;
    Ok(long && first_wrong_byte(alloc, &mut bytes, tree).is_none())
}

#[test]
fn every_byte_counts_or_is_free(rt: HostRuntime) -> Result<(), Fail> {
    let mut tree = five(rt.alloc())?;
    assert!(rt; counts_each_byte(rt.alloc(), &mut tree)?);
    Ok(())
}

// Whether the file is refused where this byte begins the separator in its root.
fn is_out_of_order(alloc: Global, tree: &NdxTree, byte: u8) -> Result<bool, AllocError> {
    let bytes = changed(alloc, tree, &[(3 * PAGE + 12, byte)])?;
    Ok(fault_of(alloc, &bytes) == Some(TreeFault::Order))
}

#[test]
fn separators_stand_between_their_sides(rt: HostRuntime) -> Result<(), Fail> {
    let tree = five(rt.alloc())?;
    assert!(rt; is_out_of_order(rt.alloc(), &tree, b'J')?);
    assert!(rt; is_out_of_order(rt.alloc(), &tree, b'L')?);
    assert!(rt; !is_out_of_order(rt.alloc(), &tree, b'K')?);
    Ok(())
}

// The first length to which the file can be cut without the fault that is wanted.
fn first_wrong_cut(alloc: Global, bytes: &[u8]) -> Option<usize> {
    for length in 0..bytes.len() {
        let want = if length < PAGE {
            TreeFault::Head
        } else {
            TreeFault::Reach
        };
        if fault_of(alloc, &bytes[..length]) != Some(want) {
            return Some(length);
        }
    }
    None
}

#[test]
fn cut_files(rt: HostRuntime) -> Result<(), Fail> {
    let tree = five(rt.alloc())?;
    let bytes = written(&tree, rt.alloc())?;
    assert_eq!(rt; first_wrong_cut(rt.alloc(), &bytes), None);
    Ok(())
}
