// Calls of a store, each made where its conditions hold, and what they answer.

ghost use Rattle.std.specs.Prelude.{◌≡◌, ◌<◌, ◌≤◌, IsTrue, IsSome, IfSome, true, length, is_some};
ghost use Rattle.dbf_file.specs.Tables.{letter_at};
ghost use Rattle.dbf_file.specs.Values.{kind_for};
ghost use Rattle.open_table.specs.Marks.{mark_at};
ghost use Rattle.work_area.specs.Areas.{here};
ghost use Rattle.xvalue.specs.Kinds.{kind_of};

use arrayvec::ArrayVec;
use dbf_file::Table;
use key_lists::KeyList;
use open_table::{AppendError, Refused, Row};
use row_moves::Spent;
use std::alloc::Global;
use std::cell::Cell;
use work_area::Store;
use xvalue::{Kind, Lent, Text, Value, text_from};

/// A call of a store: of a table by its number, of indexes by the figures of theirs, and texts into the first field.
#[derive(Clone, Copy)]
pub(crate) enum Call<'a> {
    Use(u16, &'a str),
    Close,
    CloseAll,
    Select(u8),
    Order(u8),
    Filter(u16),
    Top,
    Bottom,
    Skip(i128),
    Go(u32),
    Seek(&'a [u8], bool),
    Append,
    Write(&'a [u8]),
    Delete,
    Recall,
    Pack,
    Zap,
    Reindex,
    IndexOn(u8),
}

/// What a call answers.
#[derive(Clone, Copy, PartialEq, Eq)]
pub(crate) enum Answer {
    Cost(u64),
    Done,
    Spent,
    Full,
    NoMemory,
    /// Its conditions don't hold.
    Misused,
}

/// The call of a word without anything behind it.
fn plain_call(word: &str) -> Option<Call<'static>> {
    let made = [
        ("close", Call::Close),
        ("closeall", Call::CloseAll),
        ("top", Call::Top),
        ("bottom", Call::Bottom),
        ("append", Call::Append),
        ("delete", Call::Delete),
        ("recall", Call::Recall),
        ("pack", Call::Pack),
        ("zap", Call::Zap),
        ("reindex", Call::Reindex),
    ];
    for (name, call) in &made {
        if *name == word {
            return Some(*call);
        }
    }
    None
}

/// The call of a word and a number.
fn call_with(word: &str, number: &str) -> Option<Call<'static>> {
    let low: u8 = number.parse().unwrap_or(0);
    if word == "select" {
        return Some(Call::Select(low));
    }
    if word == "order" {
        return Some(Call::Order(low));
    }
    if word == "filter" {
        return Some(Call::Filter(u16::from(low)));
    }
    if word == "skip" {
        return Some(Call::Skip(number.parse().unwrap_or(0)));
    }
    if word == "go" {
        return Some(Call::Go(u32::from(low)));
    }
    if word == "index" {
        return Some(Call::IndexOn(low));
    }
    None
}

/// The call that a text spells.
pub(crate) fn call_of<'a>(text: &'a str) -> Option<Call<'a>> {
    let (word, rest) = text.split_once(' ').unwrap_or((text, ""));
    if word == "use" {
        let (table, list) = rest.split_once(' ').unwrap_or((rest, ""));
        return Some(Call::Use(table.parse().unwrap_or(0), list));
    }
    if word == "write" {
        return Some(Call::Write(rest.as_bytes()));
    }
    if word == "seek" || word == "exact" {
        return Some(Call::Seek(rest.as_bytes(), word == "exact"));
    }
    if rest.is_empty() {
        return plain_call(word);
    }
    call_with(word, rest)
}

/// The answer that a text spells.
pub(crate) fn answer_of(text: &str) -> Answer {
    if let Some(cost) = text.strip_prefix("cost ") {
        return Answer::Cost(cost.parse().unwrap_or(0));
    }
    if text == "done" {
        return Answer::Done;
    }
    if text == "spent" {
        return Answer::Spent;
    }
    if text == "full" {
        return Answer::Full;
    }
    Answer::Misused
}

/// Which rows are shown.
#[derive(Clone, Copy)]
pub(crate) enum Shows<'a> {
    Every,
    /// All, and each is counted.
    Counted(&'a Cell<u32>),
    Unmarked,
    Nothing,
    From(u32),
    /// All, where there are so many.
    Of(u32),
    /// Those whose first field holds this text.
    Holding(&'a [u8]),
}

/// Whether a value is this text.
fn is_text(value: &Lent<'_>, text: &[u8]) -> bool {
    match value.kind() {
        Kind::Text => value.text() == text,
        _ => false,
    }
}

fn sees(shows: Shows<'_>, row: &Row<'_>) -> bool {
    match shows {
        Shows::Every => true,
        Shows::Counted(count) => {
            count.set(count.get().wrapping_add(1));
            true
        }
        Shows::Unmarked => !row.marked(),
        Shows::Nothing => false,
        Shows::From(number) => row.record() >= number,
        Shows::Of(count) => row.count() == count,
        Shows::Holding(text) => 0 < row.fields() && is_text(&row.lent(0), text),
    }
}

fn is_open<K: KeyList>(store: &Store<K>) -> bool
    ensures { IsTrue result → IsSome (here store.now) }
{
    store.is_open(store.selected())
}

fn moved(answer: Result<u64, Spent>) -> Answer {
    match answer {
        Ok(cost) => Answer::Cost(cost),
        Err(_) => Answer::Spent,
    }
}

fn ended(answer: Result<u64, Refused>) -> Answer {
    match answer {
        Ok(cost) => Answer::Cost(cost),
        Err(Refused::Spent) => Answer::Spent,
        Err(Refused::NoMemory) => Answer::NoMemory,
    }
}

/// The numbers that the figures of a text are, eight at most.
fn numbers_of(figures: &str) -> ArrayVec<u8, 8> {
    let mut numbers = ArrayVec::new();
    for figure in figures.bytes() {
        let _ = numbers.try_push(figure & 15);
    }
    numbers
}

fn use_table<K: KeyList>(
    store: &mut Store<K>,
    alloc: Global,
    table: u16,
    list: &str,
    shows: Shows<'_>,
    budget: u64,
) -> Answer {
    if usize::from(table) >= store.count() {
        return Answer::Misused;
    }
    let numbers = numbers_of(list);
    let indexes = numbers.as_slice();
    if store.is_elsewhere(table) || indexes.len() > 7 || !store.has_indexes(table, indexes) {
        return Answer::Misused;
    }
    ended(store.open(
        alloc,
        table,
        1,
        indexes,
        |row: &Row<'_>| sees(shows, row),
        budget,
    ))
}

fn select<K: KeyList>(store: &mut Store<K>, area: u8) -> Answer {
    if area < 1 || area > 10 {
        return Answer::Misused;
    }
    store.select(area);
    Answer::Done
}

fn set_order<K: KeyList>(store: &mut Store<K>, order: u8) -> Answer {
    if !is_open(store) {
        return Answer::Misused;
    }
    if usize::from(order) > store.list_of(store.selected()).len() {
        return Answer::Misused;
    }
    store.set_order(order);
    Answer::Done
}

fn set_filter<K: KeyList>(store: &mut Store<K>, filter: u16) -> Answer {
    if !is_open(store) {
        return Answer::Misused;
    }
    if filter == 0 {
        store.clear_filter();
    } else {
        store.set_filter(filter);
    }
    Answer::Done
}

fn has_order<K: KeyList>(store: &Store<K>) -> bool
    requires { IsSome (here store.now) }
    ensures { IsTrue result → IfSome (here store.now) (λ o. 1 ≤ o.order) }
{
    store.order_of(store.selected()) >= 1
}

fn append<K: KeyList>(store: &mut Store<K>) -> Answer {
    if !is_open(store) {
        return Answer::Misused;
    }
    match store.append() {
        Ok(()) => Answer::Done,
        Err(AppendError::Full) => Answer::Full,
        Err(AppendError::NoMemory) => Answer::NoMemory,
    }
}

// Whether the first field holds values of this kind.
fn takes(table: &Table, value: &Value) -> bool
    ensures there { IsTrue result → 0 < length table.now.structure.fields }
    ensures kind { IsTrue result → kind_of value.now ≡ kind_for (letter_at table.now.structure 0) }
{
    match table.structure().fields() {
        [field, ..] => field.letter.kind() == value.kind(),
        [] => false,
    }
}

fn takes_here<K: KeyList>(store: &Store<K>, value: &Value) -> bool
    ensures there { IsTrue result → IfSome (here store.now) (λ o. 0 < length o.table.structure.fields) }
    ensures kind { IsTrue result
        → IfSome (here store.now) (λ o. kind_of value.now ≡ kind_for (letter_at o.table.structure 0)) }
{
    match store.use_of(store.selected()) {
        Some(used) => takes(store.table(used.table), value),
        None => false,
    }
}

fn text_value(text: &[u8]) -> Value {
    let mut held = Text::new();
    match held.try_extend_from_slice(text) {
        Ok(()) => Value::Text(held),
        Err(_) => Value::Logical(false),
    }
}

fn write<K: KeyList>(store: &mut Store<K>, text: &[u8]) -> Answer {
    let value = text_value(text);
    if !is_open(store) {
        return Answer::Misused;
    }
    if !takes_here(store, &value) {
        return Answer::Misused;
    }
    match store.replace(0, &Lent::of(&value)) {
        Ok(()) => Answer::Done,
        Err(_) => Answer::NoMemory,
    }
}

fn mark<K: KeyList>(store: &mut Store<K>, marked: bool) -> Answer {
    if !is_open(store) {
        return Answer::Misused;
    }
    if marked {
        store.delete();
    } else {
        store.recall();
    }
    Answer::Done
}

fn has_index_here<K: KeyList>(store: &Store<K>, number: u8) -> bool
    ensures { IsTrue result → IfSome (here store.now) (λ o. is_some (mark_at o.table.marks number) ≡ true) }
{
    match store.use_of(store.selected()) {
        Some(used) => store.has_indexes(used.table, &[number]),
        None => false,
    }
}

/// Moves.
fn play_move<K: KeyList>(
    store: &mut Store<K>,
    call: Call<'_>,
    shows: Shows<'_>,
    budget: u64,
) -> Answer {
    if !is_open(store) {
        return Answer::Misused;
    }
    let see = |row: &Row<'_>| sees(shows, row);
    match call {
        Call::Top => moved(store.top(see, budget)),
        Call::Bottom => moved(store.bottom(see, budget)),
        Call::Skip(steps) => moved(store.skip(steps, see, budget)),
        Call::Go(number) => moved(store.go(Some(number), see, budget)),
        Call::Seek(text, exact) if has_order(store) => {
            moved(store.seek(text, exact, see, budget))
        }
        _ => Answer::Misused,
    }
}

/// Calls that end with a move, and moves.
fn play_costly<K: KeyList>(
    store: &mut Store<K>,
    alloc: Global,
    call: Call<'_>,
    shows: Shows<'_>,
    budget: u64,
) -> Answer {
    if let Call::Use(table, list) = call {
        return use_table(store, alloc, table, list, shows, budget);
    }
    if !is_open(store) {
        return Answer::Misused;
    }
    let see = |row: &Row<'_>| sees(shows, row);
    match call {
        Call::Pack => ended(store.pack(alloc, see, budget)),
        Call::Zap => ended(store.zap(alloc, see, budget)),
        Call::Reindex => ended(store.reindex(alloc, see, budget)),
        Call::IndexOn(number) if has_index_here(store, number) => {
            ended(store.index_on(alloc, 2, number, see, budget))
        }
        _ => play_move(store, call, shows, budget),
    }
}

/// Makes a call.
pub(crate) fn play<K: KeyList>(
    store: &mut Store<K>,
    alloc: Global,
    call: Call<'_>,
    shows: Shows<'_>,
    budget: u64,
) -> Answer {
    match call {
        Call::Close => {
            store.close();
            Answer::Done
        }
        Call::CloseAll => {
            store.close_all();
            Answer::Done
        }
        Call::Select(area) => select(store, area),
        Call::Order(order) => set_order(store, order),
        Call::Filter(filter) => set_filter(store, filter),
        Call::Append => append(store),
        Call::Write(text) => write(store, text),
        Call::Delete => mark(store, true),
        Call::Recall => mark(store, false),
        _ => play_costly(store, alloc, call, shows, budget),
    }
}

/// Where the selected area is: RECNO(), EOF(), BOF(), FOUND(), RECCOUNT() and DELETED(); none where it is closed.
#[derive(Clone, Copy, PartialEq, Eq)]
pub(crate) struct Place {
    pub(crate) recno: u32,
    pub(crate) eof: bool,
    pub(crate) bof: bool,
    pub(crate) found: bool,
    pub(crate) reccount: u32,
    pub(crate) deleted: bool,
}

/// Where the selected area is.
pub(crate) fn place_of<K: KeyList>(store: &Store<K>) -> Option<Place> {
    if !is_open(store) {
        return None;
    }
    Some(Place {
        recno: store.recno(),
        eof: store.eof(),
        bof: store.bof(),
        found: store.found(),
        reccount: store.reccount(),
        deleted: store.deleted(),
    })
}

/// The first field of the selected area's record; none where it is closed or no text.
pub(crate) fn first_text<K: KeyList>(store: &Store<K>) -> Option<Text> {
    if !is_open(store) {
        return None;
    }
    if !has_field(store) {
        return None;
    }
    let value = store.field(store.selected(), 0);
    match value.kind() {
        Kind::Text => Some(text_from(value.text())),
        _ => None,
    }
}

fn has_field<K: KeyList>(store: &Store<K>) -> bool
    ensures { IsTrue result → IfSome (here store.now) (λ o. 0 < length o.table.structure.fields) }
{
    takes_here(store, &Value::Text(Text::new()))
}
