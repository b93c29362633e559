// Moves in record order and by lists of keys of both kinds. Each answer comes at just its cost, and is refused below
// it.

use crate::files::lists::put;
use key_lists::{Entry, KeyList, SortedKeys};
use ndx_tree::NdxTree;
use row_moves::{Landed, Records, RowMove, RowOrder, Spent, make_move, seek};
use std::alloc::{AllocError, Global};
use std::test::Fail;

// What a move is to answer: a record, or 0 at the end of file; the cost; BOF(); and FOUND().
type Wanted = (u32, u64, bool, bool);

// From a record, or 0 at the end of file, so many rows on.
type Skip = (u32, i128, Wanted);

// A text sought, and EXACT.
type Sought = (&'static [u8], bool, Wanted);

// Of the records 1 to 5 these are shown.
fn is_shown(number: u32) -> bool {
    number > 1 && number < 5
}

// The records' keys: in their order stand 2, 5, 1, 3 and 4.
fn key_of(number: u32) -> &'static [u8] {
    match number {
        1 | 3 => b"B ",
        2 | 5 => b"A ",
        _ => b"C ",
    }
}

fn is_answer(answer: Result<Landed, Spent>, wanted: Wanted) -> bool {
    let row = if wanted.0 == 0 { None } else { Some(wanted.0) };
    answer
        == Ok(Landed {
            row,
            cost: wanted.1,
            bof: wanted.2,
            found: wanted.3,
        })
}

fn is_spent(answer: Result<Landed, Spent>) -> bool {
    answer == Err(Spent)
}

fn place_of(number: u32) -> Option<u32> {
    if number == 0 {
        return None;
    }
    Some(number)
}

fn keyed_place_of(number: u32) -> Option<Entry> {
    let key = key_of(number);
    if number == 0 || key.len() > 100 {
        return None;
    }
    Some(Entry::new(key, number))
}

// The place is handed in twice, for a move at just its cost and one below it.
fn skips<O: RowOrder>(
    order: &mut O,
    from: Option<O::Place>,
    again: Option<O::Place>,
    case: &Skip,
) -> bool {
    let (_, steps, wanted) = *case;
    let below = wanted.1.saturating_sub(1);
    is_answer(
        make_move(order, from, RowMove::skip(steps), &is_shown, wanted.1),
        wanted,
    ) && is_spent(make_move(order, again, RowMove::skip(steps), &is_shown, below))
}

fn first_wrong_skip(order: &mut Records, cases: &[Skip]) -> Option<usize> {
    for (at, case) in cases.iter().enumerate() {
        if !skips(order, place_of(case.0), place_of(case.0), case) {
            return Some(at);
        }
    }
    None
}

fn first_wrong_keyed_skip(keys: &mut SortedKeys, cases: &[Skip]) -> Option<usize> {
    for (at, case) in cases.iter().enumerate() {
        if !skips(keys, keyed_place_of(case.0), keyed_place_of(case.0), case) {
            return Some(at);
        }
    }
    None
}

fn ends<O: RowOrder>(order: &mut O, first: Wanted, last: Wanted) -> bool {
    is_answer(
        make_move(order, None, RowMove::Top, &is_shown, first.1),
        first,
    ) && is_spent(make_move(
        order,
        None,
        RowMove::Top,
        &is_shown,
        first.1.saturating_sub(1),
    )) && is_answer(
        make_move(order, None, RowMove::Bottom, &is_shown, last.1),
        last,
    ) && is_spent(make_move(
        order,
        None,
        RowMove::Bottom,
        &is_shown,
        last.1.saturating_sub(1),
    ))
}

fn nothing_is_shown<O: RowOrder>(order: &mut O) -> bool {
    is_answer(
        make_move(order, None, RowMove::Top, &|_| false, 6),
        (0, 6, true, false),
    ) && is_answer(
        make_move(order, None, RowMove::Bottom, &|_| false, 6),
        (0, 6, true, false),
    ) && is_spent(make_move(order, None, RowMove::Top, &|_| false, 5))
}

fn in_record_order() -> [Skip; 9] {
    [
        (0, 1, (0, 1, false, false)),
        (0, -1, (4, 3, false, false)),
        (0, -3, (2, 5, false, false)),
        (0, -4, (2, 6, true, false)),
        (2, 1, (3, 2, false, false)),
        (4, 1, (0, 2, false, false)),
        (1, 0, (1, 1, false, false)),
        (2, -1, (2, 2, true, false)),
        (5, -1, (4, 2, false, false)),
    ]
}

fn by_keys() -> [Skip; 10] {
    [
        (2, 1, (3, 4, false, false)),
        (2, 2, (4, 5, false, false)),
        (2, 3, (0, 5, false, false)),
        (4, 1, (0, 1, false, false)),
        (4, -1, (3, 2, false, false)),
        (4, -2, (2, 5, false, false)),
        (4, -3, (2, 5, true, false)),
        (0, -1, (4, 2, false, false)),
        (5, -1, (2, 2, false, false)),
        (5, 0, (5, 1, false, false)),
    ]
}

fn texts() -> [Sought; 10] {
    [
        (b"A", false, (2, 2, false, true)),
        (b"B", false, (3, 3, false, true)),
        (b"B", true, (3, 3, false, true)),
        (b"B    ", true, (3, 3, false, true)),
        (b"B    ", false, (0, 1, false, false)),
        (b"B  X", true, (0, 1, false, false)),
        (b"BB", true, (0, 1, false, false)),
        (b"", false, (2, 2, false, true)),
        (b"", true, (0, 1, false, false)),
        (b"D", false, (0, 1, false, false)),
    ]
}

fn first_wrong_seek<K: KeyList>(keys: &mut K, cases: &[Sought]) -> Option<usize> {
    for (at, (text, exact, wanted)) in cases.iter().enumerate() {
        let below = wanted.1.saturating_sub(1);
        let found = seek(keys, text, *exact, &is_shown, wanted.1);
        let refused = seek(keys, text, *exact, &is_shown, below);
        if !is_answer(found, *wanted) || !is_spent(refused) {
            return Some(at);
        }
    }
    None
}

fn fill<K: KeyList>(list: &mut K) -> Result<bool, AllocError> {
    for number in 1..6 {
        if !put(list, key_of(number), number)? {
            return Ok(false);
        }
    }
    Ok(true)
}

fn smiths(alloc: Global) -> Result<NdxTree, AllocError> {
    let mut tree = NdxTree::rebuild(alloc, 10, b"NAME", Vec::new(alloc))?;
    for number in 1..31 {
        put(&mut tree, b"SMITH     ", number)?;
    }
    Ok(tree)
}

#[test]
fn moves_in_record_order(rt: HostRuntime) -> Result<(), Fail> {
    let mut order = Records { count: 5 };
    assert!(rt; ends(&mut order, (2, 3, false, false), (4, 3, false, false)));
    assert!(rt; nothing_is_shown(&mut order));
    assert_eq!(rt; first_wrong_skip(&mut order, &in_record_order()), None);
    Ok(())
}

#[test]
fn moves_by_a_vector_of_keys(rt: HostRuntime) -> Result<(), Fail> {
    let mut keys = SortedKeys::rebuild(rt.alloc(), 2, b"K", Vec::new(rt.alloc()))?;
    assert!(rt; fill(&mut keys)?);
    assert!(rt; ends(&mut keys, (2, 2, false, false), (4, 2, false, false)));
    assert!(rt; nothing_is_shown(&mut keys));
    assert_eq!(rt; first_wrong_keyed_skip(&mut keys, &by_keys()), None);
    assert_eq!(rt; first_wrong_seek(&mut keys, &texts()), None);
    Ok(())
}

#[test]
fn passes_over_hidden_rows_of_a_key(rt: HostRuntime) -> Result<(), Fail> {
    let mut tree = smiths(rt.alloc())?;
    assert!(rt;
        is_answer(
            seek(&mut tree, b"SM", false, &|n| n > 2, 4),
            (3, 4, false, true)
        )
    );
    assert!(rt; is_spent(seek(&mut tree, b"SM", false, &|n| n > 2, 3)));
    assert!(rt;
        is_answer(
            seek(&mut tree, b"SMITH", true, &|_| false, 31),
            (0, 31, false, false)
        )
    );
    Ok(())
}
