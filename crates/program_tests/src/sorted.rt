// Runs of the checking machine over a table, whose index, if it has one, is kept in memory as sorted keys.
#![tactic(auto)]

ghost use Rattle.std.specs.Prelude.{IsTrue, IsSome};
ghost use Rattle.work_area.specs.Areas.{here};

use super::cases::{CODE, compiled};
use super::parts::{RunCase, are_bytes, number_at};
use super::stored::day_in;
use code_items::laws::legal_codes;
use dbf_file::{Table, read};
use file_access::{MemoryFiles, WORKS_FOR_EVER};
use file_commands::read_code;
use key_lists::SortedKeys;
use run_laws::laws::new_stores_fit;
use std::alloc::{AllocError, Global};
use tagged_machine::{End, Outcome, World, run_checked};
use text_lines::TypedLines;
use work_area::Store;
use work_area::handed::{are_lists, are_of_shape};
use xcode::LegalCode;

/// The most records that any table may have.
const MOST_RECORDS: u32 = 1_000_000;

/// The most records of the table.
fn limit_of(case: RunCase<'_>) -> u32 {
    u32::try_from(case.number("limit ", 1000)).unwrap_or(0)
}

/// How many indexes a case declares.
fn index_count(case: RunCase<'_>) -> usize {
    let mut count = 0_usize;
    for line in case.says("declarations\n").lines() {
        if line.starts_with("INDEX") {
            count = count.saturating_add(1);
        }
    }
    count
}

/// The table of a case with these bytes of its file, and its indexes, which are stale.
fn handed(
    alloc: Global,
    bytes: &[u8],
    case: RunCase<'_>,
) -> Result<Option<(Vec<Table>, Vec<Option<SortedKeys>>)>, AllocError> {
    let Ok(table) = read(alloc, bytes, limit_of(case) as usize) else {
        return Ok(None);
    };
    let mut tables = Vec::new(alloc);
    tables.push(table)?;
    let mut lists = Vec::new(alloc);
    for _ in 0..index_count(case) {
        lists.push(None)?;
    }
    Ok(Some((tables, lists)))
}

/// How a run of a code over the table and its index ends, and the world that it leaves.
fn run_over(
    alloc: Global,
    code: &LegalCode,
    tables: Vec<Table>,
    lists: Vec<Option<SortedKeys>>,
    case: RunCase<'_>,
) -> Option<(Outcome, World<SortedKeys>)> {
    legal_codes();
    new_stores_fit();
    let shape = &code.code().declared.shape;
    let limit = limit_of(case);
    if !shape.is_legal()
        || !are_of_shape(shape, &tables, limit.min(MOST_RECORDS))
        || !are_lists(shape, &lists)
    {
        return None;
    }
    let Ok(store) = Store::new(alloc, shape, tables, lists, limit) else {
        return None;
    };
    let day = day_in(case)?.day();
    let typed = TypedLines::new(Vec::new(alloc));
    let opened = World::opening(alloc, code, store, day, typed);
    let Ok(world) = opened else {
        return None;
    };
    let mut world = world;
    let outcome = run_checked(alloc, code, &mut world, case.number("budget ", 1_000_000));
    Some((outcome, world))
}

fn is_open_here(store: &Store<SortedKeys>) -> bool
    ensures { IsTrue result → IsSome (here store.now) }
{
    store.is_open(store.selected())
}

/// Whether the selected work area's pointer is at this record.
fn points_to(store: &Store<SortedKeys>, record: u64) -> bool {
    is_open_here(store) && u64::from(store.recno()) == record
}

/// Whether a line lists this key and this record.
fn is_line(line: &str, key: &[u8], record: u32) -> bool {
    let (number, text) = line.trim_start().split_once(' ').unwrap_or(("", ""));
    number.parse() == Ok(record) && text.as_bytes() == key
}

/// Whether the index isn't stale, and its list is just this, behind the names of its file and its key.
fn lists_just(store: &Store<SortedKeys>, list: &str) -> bool {
    let Some(keys) = store.keys(0) else {
        return false;
    };
    let mut lines = list.lines().skip(2);
    for entry in keys.pairs() {
        match lines.next() {
            Some(line) if is_line(line, entry.key(), entry.number()) => {}
            _ => return false,
        }
    }
    lines.next().is_none()
}

/// Whether a run ended as a case says.
fn has_ended(outcome: Outcome, case: RunCase<'_>) -> bool {
    let ended = case.line("ended ");
    let word = match outcome.end {
        End::Finished => "finished",
        End::Spent => "spent",
        End::Full(_) => "full",
        _ => "",
    };
    let place = if word == "full" { 2 } else { 1 };
    ended.split_whitespace().next() == Some(word) && number_at(ended, place) == outcome.steps
}

/// Whether a world is left as a case says.
fn is_left(alloc: Global, world: &World<SortedKeys>, case: RunCase<'_>) -> bool {
    are_bytes(world.finish(alloc), case.says("rows\n").as_bytes())
        && points_to(world.store(), case.number("sorted ", 0))
        && (!case.has("keys ") || lists_just(world.store(), case.says("keys ")))
}

/// Whether the run of a case over sorted keys prints, ends and leaves what it says.
fn runs_so(alloc: Global, files: &mut MemoryFiles<'_>, case: RunCase<'_>) -> Option<bool> {
    if !compiled(alloc, files, case) {
        return None;
    }
    let code = read_code(alloc, files, CODE).ok()?;
    let name = case.line("table ").split_whitespace().next()?;
    let bytes = files.bytes_of(name)?;
    let (tables, lists) = handed(alloc, bytes, case).ok()??;
    let (outcome, world) = run_over(alloc, &code, tables, lists, case)?;
    Some(has_ended(outcome, case) && is_left(alloc, &world, case))
}

/// Whether the run of a case over sorted keys comes to what it says of it.
pub fn runs_over_sorted_keys(alloc: Global, case: RunCase<'_>) -> bool {
    let mut files = MemoryFiles::new(alloc, &[], WORKS_FOR_EVER);
    !case.has("sorted ") || runs_so(alloc, &mut files, case) == Some(true)
}
