// Runs of calls beside a plain list, which is scanned from its front. What holds of every list of keys takes any
// `KeyList`.

ghost use Rattle.std.specs.Prelude.{◌≡◌, ◌<◌, ◌+◌, ◌^◌, [], ◌∷◌, length, OnOk, IfOk};

use key_lists::laws::changes_one;
use key_lists::{Entry, KeyList, SortedKeys};
use std::alloc::{AllocError, Global};
use std::test::Fail;

const KEY_BYTES: usize = 2;

// The keys that are tried, put in order by hand: a blank counts as any byte, capitals come before small letters.
const KEYS: [[u8; 2]; 7] = [*b"  ", *b" A", *b"A ", *b"AA", *b"Z ", *b"a ", [0xC4, b'B']];

const RECORDS: [u32; 3] = [2, 10, 4_294_967_295];

const PAIRS: usize = 21;

// The plain list: which of the pairs it has, all of them being numbered in order.
#[derive(Drop)]
struct Plain {
    has: [bool; PAIRS],
}

impl Plain {
    fn first_at_or_above(&self, from: usize) -> Option<usize> {
        (0..PAIRS).find(|at| *at >= from && self.has[*at])
    }

    fn last_below(&self, end: usize) -> Option<usize> {
        let mut found = None;
        for at in 0..PAIRS {
            if at < end && self.has[at] {
                found = Some(at);
            }
        }
        found
    }

    fn count(&self) -> usize {
        let mut count = 0usize;
        for at in 0..PAIRS {
            count = count.saturating_add(usize::from(self.has[at]));
        }
        count
    }
}

fn key_of(at: usize) -> [u8; 2] {
    KEYS[at / 3 % 7]
}

fn record_of(at: usize) -> u32 {
    RECORDS[at % 3]
}

// Whether the list answered the pair of this number.
fn is_pair(answer: &Option<Entry>, wanted: Option<usize>) -> bool {
    match (answer, wanted) {
        (None, None) => true,
        (Some(entry), Some(at)) => {
            entry.key() == &key_of(at)[..] && entry.number() == record_of(at)
        }
        _ => false,
    }
}

// A reservation, where memory is refused at the second try.
fn reserve<K: KeyList>(list: &mut K) -> Result<(), AllocError>
    requires { length (K.pairs list.old) + 1 < 2 ^ 32 }
    ensures pairs { K.pairs list.new ≡ K.pairs list.old }
    ensures form { K.form list.new ≡ K.form list.old }
    ensures ok { OnOk result (0 < K.spare list.new) }
{
    match list.reserve_one() {
        Ok(()) => Ok(()),
        Err(_) => list.reserve_one(),
    }
}

// Puts a pair in, in place of itself where it is there. Whether it could be put in.
pub(crate) fn put<K: KeyList>(list: &mut K, key: &[u8], number: u32) -> Result<bool, AllocError> {
    if key.len() != list.key_length() || number == 0 {
        return Ok(false);
    }
    if list.len() > 1000 {
        return Ok(false);
    }
    changes_one();
    list.remove(key, number);
    reserve(list)?;
    list.insert(key, number);
    Ok(true)
}

// Whether the searches from a pair, there or not, answer as a scan of the plain list does.
fn agrees_from<K: KeyList>(list: &mut K, plain: &Plain, at: usize) -> bool {
    let key = key_of(at);
    let number = record_of(at);
    is_pair(&list.first_from(&key), plain.first_at_or_above(at / 3 * 3))
        && is_pair(
            &list.after(&key, number),
            plain.first_at_or_above(at.saturating_add(1)),
        )
        && is_pair(&list.before(&key, number), plain.last_below(at))
}

// Each search answers as a scan of the plain list does, from every pair, there or not.
fn searches_agree<K: KeyList>(list: &mut K, plain: &Plain) -> bool {
    let mut agree = list.len() == plain.count()
        && is_pair(&list.first(), plain.first_at_or_above(0))
        && is_pair(&list.last(), plain.last_below(PAIRS));
    for at in 0..PAIRS {
        agree = agree && agrees_from(list, plain, at);
    }
    agree
}

// Takes a pair out or puts it in. Whether the list answered as the plain list does.
fn turns<K: KeyList>(
    list: &mut K,
    plain: &Plain,
    at: usize,
    takes: bool,
) -> Result<bool, AllocError> {
    let key = key_of(at);
    if takes {
        Ok(at < PAIRS && list.remove(&key, record_of(at)) == plain.has[at])
    } else {
        put(list, &key, record_of(at))
    }
}

// The number of the turn at which the list first answered otherwise than the plain list.
pub(crate) fn first_difference<K: KeyList>(list: &mut K) -> Result<Option<usize>, AllocError> {
    let mut plain = Plain {
        has: [false; PAIRS],
    };
    for turn in 0..200usize {
        let at = (turn * 8 + turn / 5) % PAIRS;
        let takes = turn % 3 == 2;
        let agrees = turns(list, &plain, at, takes)?;
        plain.has[at] = !takes;
        if !agrees || !searches_agree(list, &plain) {
            return Ok(Some(turn));
        }
    }
    Ok(None)
}

fn empty_list(alloc: Global) -> Result<SortedKeys, AllocError> {
    SortedKeys::rebuild(alloc, KEY_BYTES, b"NAME+CITY", Vec::new(alloc))
}

// Whether an empty list answers as a plain list does.
fn is_plain(list: &mut SortedKeys) -> Result<bool, AllocError> {
    let none = list.first().is_none() && list.last().is_none() && list.first_from(b"").is_none();
    Ok(list.len() == 0 && none && first_difference(list)?.is_none())
}

#[test]
fn answers_as_a_plain_list(rt: HostRuntime) -> Result<(), Fail> {
    let mut list = empty_list(rt.alloc())?;
    assert!(rt; is_plain(&mut list)?);
    Ok(())
}

// The entries of the test below, in no order.
fn unordered(alloc: Global) -> Result<Vec<Entry>, AllocError>
    ensures { IfOk result (λ entries. entries.items ≡ (66 ∷ 32 ∷ [], 9) ∷ (66 ∷ 32 ∷ [], 3) ∷ (65 ∷ 90 ∷ [], 12)
        ∷ (32 ∷ 66 ∷ [], 7) ∷ []) }
{
    let mut entries = Vec::new(alloc);
    entries.push(Entry::new(b"B ", 9))?;
    entries.push(Entry::new(b"B ", 3))?;
    entries.push(Entry::new(b"AZ", 12))?;
    entries.push(Entry::new(b" B", 7))?;
    Ok(entries)
}

// They, where memory is refused at the second try.
fn unordered_at_last(alloc: Global) -> Result<Vec<Entry>, AllocError>
    ensures { IfOk result (λ entries. entries.items ≡ (66 ∷ 32 ∷ [], 9) ∷ (66 ∷ 32 ∷ [], 3) ∷ (65 ∷ 90 ∷ [], 12)
        ∷ (32 ∷ 66 ∷ [], 7) ∷ []) }
{
    match unordered(alloc) {
        Ok(entries) => Ok(entries),
        Err(_) => unordered(alloc),
    }
}

#[test]
fn puts_pairs_in_order(rt: HostRuntime) -> Result<(), Fail> {
    let entries = unordered_at_last(rt.alloc())?;
    let list = SortedKeys::rebuild(rt.alloc(), KEY_BYTES, b"UPPER(NAME)", entries)?;
    let numbers = [7, 12, 3, 9];
    assert_eq!(rt; list.pairs().len(), 4);
    for (place, entry) in list.pairs().iter().enumerate() {
        assert_eq!(rt; entry.number(), numbers[place % 4]);
    }
    assert_eq!(rt; list.key_length(), 2);
    assert_eq!(rt; list.key_text(), &b"UPPER(NAME)"[..]);
    Ok(())
}

// Three pairs: `A ` with record 1, `AB` with 2, `B ` with 3.
fn three(alloc: Global) -> Result<SortedKeys, AllocError> {
    let mut list = empty_list(alloc)?;
    put(&mut list, b"A ", 1)?;
    put(&mut list, b"AB", 2)?;
    put(&mut list, b"B ", 3)?;
    Ok(list)
}

pub(crate) fn has_number(entry: &Option<Entry>, number: u32) -> bool {
    entry.as_ref().is_some_and(|entry| entry.number() == number)
}

// A key of another length may be searched for: what begins with it isn't below it.
fn is_prefix_below(list: &mut SortedKeys) -> bool {
    has_number(&list.first_from(b"A"), 1)
        && has_number(&list.first_from(b"AB "), 3)
        && has_number(&list.after(b"A", 9), 1)
        && has_number(&list.before(b"AB ", 1), 2)
}

#[test]
fn a_prefix_is_below(rt: HostRuntime) -> Result<(), Fail> {
    let mut list = three(rt.alloc())?;
    assert!(rt; is_prefix_below(&mut list));
    Ok(())
}
