// Sequences of calls of a store over both kinds of lists, with what each answers and where it leads.

use crate::areas::made::{list_of, plain_store, shape_of, store_of, table_of};
use crate::areas::play::{Answer, Call, Shows, answer_of, call_of, first_text, place_of, play};
use key_lists::{KeyList, SortedKeys};
use ndx_tree::NdxTree;
use shape::Shape;
use std::alloc::{AllocError, Global};
use std::test::Fail;
use work_area::Store;

const BIG: u64 = 1_000_000;

/// Sequences. Behind `#` stand the width of the field, the limit of records, and the first texts, each with `,` behind
/// it. Each row is a call, what it answers, and where it leads: the record, `e` for EOF(), `b` for BOF() and `f` for
/// FOUND(). `shows` says which rows are shown from then on, and `*` begins a remark.
const SEQUENCES: &str = "\
#1|9|A,B,C,
* An index made, closed, changed behind its back and opened again.
use 0|cost 2|1
index 0|cost 5|1
use 0|cost 2|1
write Z|done|1
use 0 0|cost 5|2
seek Z|cost 2|1 f
use 0 0|cost 2|2
#1|9|A,B,C,
* Marked rows packed, and all taken away.
use 0|cost 2|1
index 0|cost 5|1
go 2|cost 1|2
delete|done|2
pack|cost 7|1
reindex|cost 4|1
zap|cost 1|1 eb
top|cost 1|1 eb
#1|9|A,B,C,
* A key that changes moves its record in the order, not the pointer.
use 0|cost 2|1
index 0|cost 5|1
write Z|done|1
skip 1|cost 1|4 e
top|cost 2|2
#1|9|A,B,C,
* Moves in record order.
use 0|cost 2|1
bottom|cost 2|3
skip 1|cost 1|4 e
skip 1|cost 1|4 e
skip -1|cost 2|3
skip -2|cost 3|1
skip -1|cost 1|1 b
skip 0|cost 1|1
skip 5|cost 3|4 e
go 2|cost 1|2
go 4|cost 1|4 e
go 0|cost 1|4 e
delete|done|4 e
write Q|done|4 e
#1|9|b,a,C,
* By the key the records stand 2, 1, 3; capitals come before small letters, and in UPPER() they are alike.
use 0 01|cost 8|3
skip 1|cost 2|2
skip 1|cost 2|1
order 2|done|1
top|cost 2|2
skip 1|cost 2|1
skip 1|cost 2|3
exact B|cost 2|1 f
seek b|cost 1|4 e
seek |cost 2|2 f
exact |cost 1|4 e
exact A  |cost 2|2 f
seek A  |cost 1|4 e
order 0|done|4 e
#1|9|A,B,C,
* Two marked rows are passed over.
shows unmarked
use 0 0|cost 5|1
delete|done|1
top|cost 3|2
delete|done|2
seek |cost 4|3 f
skip -1|cost 3|3 b
go 1|cost 1|1
recall|done|1
skip 1|cost 3|3
pack|cost 7|1
bottom|cost 2|2
#1|9|A,B,C,
* A table is in one area at a time; USE closes what its area held; CLOSE ALL selects area 1.
top|misused|0
close|done|0
use 0 0|cost 5|1
select 10|done|0
use 0|misused|0
use 1|cost 1|1 eb
use 1 0|misused|1 eb
select 11|misused|1 eb
select 1|done|1
skip 1|cost 2|2
use 1|misused|2
use 2|cost 1|1 eb
select 10|done|1 eb
use 0 0|cost 2|1
select 4|done|0
use 1|cost 1|1 eb
closeall|done|0
use 1|cost 1|1 eb
close|done|0
#1|9|A,B,C,
* Seven open indexes follow each change.
use 0 0123456|cost 23|1
append|done|4
write 0|done|4
order 7|done|4
top|cost 2|4
delete|done|4
reindex|cost 30|4
pack|cost 27|1
use 0 01234567|misused|1
#1|2|
* A table that is full.
use 1|cost 1|1 eb
append|done|1
append|done|2
append|full|2
skip -1|cost 2|1
append|full|1
#1|9|A,B,C,
* Records from 3 on are shown alone.
shows from
use 0 0|cost 7|3
skip -1|cost 3|3 b
go 2|cost 1|2
seek B|cost 2|4 e
bottom|cost 2|3
#1|9|A,B,C,
* Rows are shown only where there are three.
shows three
use 0|cost 2|1
filter 3|done|1
delete|done|1
pack|cost 6|3 eb
append|done|3
top|cost 2|1
#1|9|A,B,B,
* Records that hold B are shown alone.
shows b
use 0|cost 3|2
skip 1|cost 2|3
skip -1|cost 2|2
skip -1|cost 2|2 b
top|cost 3|2
#1|9|A,B,C,
* Nothing is shown.
shows nothing
use 0 0|cost 7|4 eb
bottom|cost 4|4 eb
skip -1|cost 4|4 eb
skip 1|cost 1|4 e
#10|100|SMITH,SMITH,SMITH,SMITH,SMITH,SMITH,SMITH,SMITH,SMITH,SMITH,SMITH,SMITH,SMITH,SMITH,SMITH,SMITH,SMITH,SMITH,\
SMITH,SMITH,SMITH,SMITH,SMITH,SMITH,SMITH,SMITH,SMITH,SMITH,SMITH,SMITH,
* Thirty rows of one key, two of them marked: a search passes over the marked ones.
use 0|cost 2|1
delete|done|1
go 2|cost 1|2
delete|done|2
index 0|cost 32|1
shows unmarked
seek SM|cost 4|3 f
#5|9|  998,  999,
* Keys that fall behind the other record's with each change: the next step leads there again.
use 0|cost 2|1
index 0|cost 4|1
top|cost 2|1
write   997|done|1
skip 1|cost 2|2
write   996|done|2
skip 1|cost 2|1
write   995|done|1
skip 1|cost 2|2
write   994|done|2
top|cost 2|2
skip 1|cost 2|1
";

/// Whether the selected area is where a text says; record 0 where it is closed.
fn is_at<K: KeyList>(store: &Store<K>, text: &str) -> bool {
    let (record, flags) = text.split_once(' ').unwrap_or((text, ""));
    match place_of(store) {
        Some(place) => {
            Ok(place.recno) == record.parse()
                && place.eof == flags.contains('e')
                && place.bof == flags.contains('b')
                && place.found == flags.contains('f')
        }
        None => text == "0",
    }
}

/// A call at just its cost; one below it is refused and changes nothing that is seen.
fn is_step<K: KeyList>(
    store: &mut Store<K>,
    alloc: Global,
    call: Call<'_>,
    answer: Answer,
    shows: Shows<'_>,
) -> bool {
    let Answer::Cost(cost) = answer else {
        return play(store, alloc, call, shows, BIG) == answer;
    };
    let before = place_of(store);
    let refused = play(store, alloc, call, shows, cost.saturating_sub(1));
    refused == Answer::Spent
        && place_of(store) == before
        && play(store, alloc, call, shows, cost) == answer
}

/// Whether a row is so.
fn is_row<K: KeyList>(store: &mut Store<K>, alloc: Global, row: &str, shows: Shows<'_>) -> bool {
    let (call, rest) = row.split_once('|').unwrap_or((row, ""));
    let (answer, place) = rest.split_once('|').unwrap_or((rest, ""));
    match call_of(call) {
        Some(call) => is_step(store, alloc, call, answer_of(answer), shows) && is_at(store, place),
        None => false,
    }
}

fn shows_of(word: &str) -> Shows<'static> {
    let made = [
        ("unmarked", Shows::Unmarked),
        ("nothing", Shows::Nothing),
        ("from", Shows::From(3)),
        ("three", Shows::Of(3)),
        ("b", Shows::Holding(b"B")),
    ];
    for (name, shows) in &made {
        if *name == word {
            return *shows;
        }
    }
    Shows::Every
}

/// The first row of a sequence that isn't so.
fn first_wrong<'a, K: KeyList>(
    store: &mut Store<K>,
    alloc: Global,
    rows: &'a str,
) -> Option<&'a str> {
    let mut shows = Shows::Every;
    for row in rows.lines() {
        if let Some(word) = row.strip_prefix("shows ") {
            shows = shows_of(word);
        } else if !row.starts_with('*') && !is_row(store, alloc, row, shows) {
            return Some(row);
        }
    }
    None
}

/// The store of the front of a sequence, and the first row that isn't so.
fn runs<'a, K: KeyList>(alloc: Global, sequence: &'a str) -> Result<Option<&'a str>, AllocError> {
    let (front, rows) = sequence.split_once('\n').unwrap_or((sequence, ""));
    let (width, rest) = front.split_once('|').unwrap_or((front, ""));
    let (limit, texts) = rest.split_once('|').unwrap_or((rest, ""));
    let width = width.parse().unwrap_or(0);
    let shape = shape_of(alloc, 3, width, "-U------")?;
    let store = plain_store::<K>(alloc, &shape, width, texts, limit.parse().unwrap_or(0))?;
    let Some(mut store) = store else {
        return Ok(Some("no store"));
    };
    Ok(first_wrong(&mut store, alloc, rows))
}

/// The first row that isn't so of all sequences.
fn first_wrong_of<'a, K: KeyList>(
    alloc: Global,
    sequences: &'a str,
) -> Result<Option<&'a str>, AllocError> {
    for sequence in sequences.split('#').skip(1) {
        if let Some(row) = runs::<K>(alloc, sequence)? {
            return Ok(Some(row));
        }
    }
    Ok(None)
}

#[test]
fn calls_lead_where_they_should(rt: HostRuntime) -> Result<(), Fail> {
    assert_eq!(rt; first_wrong_of::<SortedKeys>(rt.alloc(), SEQUENCES)?, None);
    assert_eq!(rt; first_wrong_of::<NdxTree>(rt.alloc(), SEQUENCES)?, None);
    Ok(())
}

// Whether a list that is handed in with the rows B and A is kept: exact, in the right order with an old pair, too
// short, too long, of none.
fn is_kept<K: KeyList>(
    alloc: Global,
    shape: &Shape,
    pairs: Option<&str>,
) -> Result<Option<bool>, AllocError> {
    let Some(table) = table_of(alloc, 1, "B,A,")? else {
        return Ok(None);
    };
    let list = match pairs {
        Some(pairs) => list_of::<K>(alloc, 1, pairs)?,
        None => None,
    };
    let mut tables = Vec::new(alloc);
    tables.push(table)?;
    let mut keys = Vec::new(alloc);
    keys.push(list)?;
    match store_of(alloc, shape, tables, keys, 9)? {
        Some(store) => Ok(Some(store.keys(0).is_some())),
        None => Ok(None),
    }
}

fn trusts_exact_lists<K: KeyList>(alloc: Global) -> Result<bool, AllocError> {
    let shape = shape_of(alloc, 1, 1, "-")?;
    for pairs in ["A 1,B 2,", "A 2,C 1,", "A 2,", "A 2,B 1,C 3,"] {
        if is_kept::<K>(alloc, &shape, Some(pairs))? != Some(false) {
            return Ok(false);
        }
    }
    let exact = is_kept::<K>(alloc, &shape, Some("A 2,B 1,"))?;
    let none = is_kept::<K>(alloc, &shape, None)?;
    Ok(exact == Some(true) && none == Some(false))
}

#[test]
fn lists_handed_in(rt: HostRuntime) -> Result<(), Fail> {
    assert!(rt; trusts_exact_lists::<SortedKeys>(rt.alloc())?);
    assert!(rt; trusts_exact_lists::<NdxTree>(rt.alloc())?);
    Ok(())
}

#[test]
fn the_smaller_limit_holds(rt: HostRuntime) -> Result<(), Fail> {
    let shape = shape_of(rt.alloc(), 1, 3, "-")?;
    for (handed, held) in [
        (0, 0),
        (999_999, 999_999),
        (1_000_000, 1_000_000),
        (1_000_001, 1_000_000),
        (u32::MAX, 1_000_000),
    ] {
        let store = plain_store::<SortedKeys>(rt.alloc(), &shape, 3, "", handed)?;
        assert!(rt; store.map(|store| store.limit()) == Some(held));
    }
    Ok(())
}

#[test]
fn what_a_store_tells(rt: HostRuntime) -> Result<(), Fail> {
    let shape = shape_of(rt.alloc(), 2, 3, "-")?;
    let store = plain_store::<SortedKeys>(rt.alloc(), &shape, 3, "X,", 7)?;
    assert!(rt; store.is_some());
    if let Some(mut store) = store {
        assert!(rt; first_text(&store).is_none());
        play(&mut store, rt.alloc(), Call::Use(0, "0"), Shows::Every, BIG);
        play(&mut store, rt.alloc(), Call::Filter(2), Shows::Every, BIG);
        assert!(rt; is_text(&store, b"X  "));
        assert!(rt;
            store
                .use_of(1)
                .map(|used| (used.table, used.list, used.filter))
                == Some((0, 1, 2))
        );
        play(&mut store, rt.alloc(), Call::Skip(1), Shows::Every, BIG);
        assert!(rt; is_text(&store, b"   "));
        assert!(rt; store.limit() == 7 && store.count() == 2 && store.selected() == 1);
        assert!(rt; store.table(0).rows() == 1);
        play(&mut store, rt.alloc(), Call::Use(0, ""), Shows::Every, BIG);
        assert!(rt;
            store
                .use_of(1)
                .map(|used| (used.table, used.list, used.filter))
                == Some((0, 1, 0))
        );
    }
    Ok(())
}

fn is_text<K: KeyList>(store: &Store<K>, wanted: &[u8]) -> bool {
    match first_text(store) {
        Some(text) => text.as_slice() == wanted,
        None => false,
    }
}

// Whether a USE that the budget doesn't pay leaves the area as it was: with another table, at its second record.
fn is_left_by_a_spent_use<K: KeyList>(alloc: Global) -> Result<bool, AllocError> {
    let shape = shape_of(alloc, 2, 3, "-")?;
    let Some(mut store) = plain_store::<K>(alloc, &shape, 3, "X,Y,", 7)? else {
        return Ok(false);
    };
    play(&mut store, alloc, Call::Use(0, "0"), Shows::Every, BIG);
    play(&mut store, alloc, Call::Skip(1), Shows::Every, BIG);
    let before = place_of(&store);
    let answer = play(&mut store, alloc, Call::Use(1, ""), Shows::Every, 0);
    Ok(answer == Answer::Spent && place_of(&store) == before && is_text(&store, b"Y  "))
}

#[test]
fn a_spent_use_leaves_the_area(rt: HostRuntime) -> Result<(), Fail> {
    assert!(rt; is_left_by_a_spent_use::<SortedKeys>(rt.alloc())?);
    assert!(rt; is_left_by_a_spent_use::<NdxTree>(rt.alloc())?);
    Ok(())
}

// A number that seems random, by a linear rule; the high bits are used.
fn next(state: u64) -> u64 {
    state
        .wrapping_mul(6_364_136_223_846_793_005)
        .wrapping_add(1_442_695_040_888_963_407)
}

const TEXTS: [&[u8]; 8] = [b"A", b"b", b"AB", b"aB", b"", b"C", b"Z", b" "];

const LISTS: [&str; 6] = ["", "0", "10", "2", "012", "21"];

fn text_at(number: usize) -> &'static [u8] {
    TEXTS[number % 8]
}

fn list_at(number: usize) -> &'static str {
    LISTS[number % 6]
}

// The call of a number: a kind of it, and what it takes.
fn numbered_call(kind: u64, number: usize) -> Call<'static> {
    match kind {
        0 => Call::Use((number % 3) as u16, list_at(number / 3)),
        1 => Call::Select((number % 3) as u8 + 1),
        2 => Call::Order((number % 4) as u8),
        3 => Call::Top,
        4 => Call::Bottom,
        5 => Call::Skip((number % 7) as i128 - 3),
        6 => Call::Go((number % 12) as u32),
        7 => Call::Seek(text_at(number), number % 3 == 0),
        8 | 9 | 10 => Call::Append,
        11 | 12 | 13 => Call::Write(text_at(number)),
        14 => Call::Delete,
        15 => Call::Recall,
        16 => Call::Pack,
        17 => Call::Reindex,
        18 => Call::IndexOn((number % 3) as u8),
        19 if number % 16 == 0 => Call::Zap,
        20 if number % 8 == 0 => Call::Close,
        _ => Call::Skip(1),
    }
}

// Calls that seem random answer the same over both kinds of lists, and lead to the same places.
fn first_difference(
    alloc: Global,
    calls: usize,
    shows: Shows<'_>,
) -> Result<Option<usize>, AllocError> {
    let shape = shape_of(alloc, 3, 2, "-U-")?;
    let (Some(mut vector), Some(mut tree)) = (
        plain_store::<SortedKeys>(alloc, &shape, 2, "A,B,C,", 40)?,
        plain_store::<NdxTree>(alloc, &shape, 2, "A,B,C,", 40)?,
    ) else {
        return Ok(Some(calls));
    };
    let mut state = 7;
    let mut made = 0usize;
    for at in 0..calls {
        state = next(state);
        let call = numbered_call((state >> 33) % 22, (state >> 40) as usize % 4096);
        let budget = (state >> 52) % 64;
        let one = play(&mut vector, alloc, call, shows, budget);
        if one != play(&mut tree, alloc, call, shows, budget)
            || place_of(&vector) != place_of(&tree)
        {
            return Ok(Some(at));
        }
        if one != Answer::Misused && one != Answer::Spent {
            made = made.saturating_add(1);
        }
    }
    if made < calls / 4 {
        return Ok(Some(calls));
    }
    Ok(None)
}

#[test]
fn a_thousand_calls(rt: HostRuntime) -> Result<(), Fail> {
    assert_eq!(rt; first_difference(rt.alloc(), 1000, Shows::Every)?, None);
    assert_eq!(rt; first_difference(rt.alloc(), 1000, Shows::Unmarked)?, None);
    Ok(())
}
