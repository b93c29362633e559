// Each byte of the files set to each value.
#![tactic(auto)]

use super::originals::{CODE, INDEX, KEYED_TABLE, TABLE, bytes_of, changed, stored};
use calendar::{Day, DayParts};
use dbf_file::{Table, read as read_table, write as write_table};
use file_access::MemoryEntry;
use ndx_tree::{Entry, KeyList, NdxTree};
use run_commands::{How, Job, RecordLimit, Report, RunDay, run_files};
use shape::Shape;
use shape_files::read_shape;
use std::alloc::{AllocError, Global};
use std::rt::HostRuntime;
use std::test::Fail;
use table_files::load;

/// The budget of each run.
const BUDGET: u64 = 1000;

fn first_day() -> Option<RunDay> {
    RunDay::of(Day::from_parts(DayParts {
        year: 1985,
        month: 1,
        day: 1,
    })?)
}

fn run(alloc: Global, bytes: &[u8], checked: bool, day: RunDay) -> Report {
    let entries = [MemoryEntry {
        name: "C.XBC",
        bytes,
    }];
    let job = Job {
        name: "C.XBC",
        checked,
        budget: BUDGET,
        limit: RecordLimit::most(),
        day,
        input: &[],
    };
    run_files(alloc, &mut stored(alloc, &entries), &job)
}

/// Whether a run met a fault.
fn has_fault(report: &Report) -> bool {
    match &report.result {
        Ok(ended) => matches!(ended.how, How::Fault(_, _)),
        Err(_) => false,
    }
}

/// Whether the bytes are refused, or run without a fault as the checking machine runs them. That runs refused codes
/// too, and returns.
fn runs_well(alloc: Global, bytes: &[u8], day: RunDay) -> bool {
    let untagged = run(alloc, bytes, false, day);
    let checked = run(alloc, bytes, true, day);
    if untagged.result.is_err() {
        return true;
    }
    !has_fault(&checked)
        && checked.result == untagged.result
        && checked.rows.as_slice() == untagged.rows.as_slice()
}

/// The first value with which byte `at` of a code file makes it run otherwise.
fn first_bad_value(
    alloc: Global,
    bytes: &[u8],
    at: usize,
    day: RunDay,
) -> Result<Option<u8>, AllocError> {
    for value in 0..=255u8 {
        let other = changed(alloc, bytes, at, value)?;
        if !runs_well(alloc, other.as_slice(), day) {
            return Ok(Some(value));
        }
    }
    Ok(None)
}

fn first_bad_byte(alloc: Global, bytes: &[u8], day: RunDay) -> Result<Option<usize>, AllocError> {
    for at in 0..bytes.len() {
        if first_bad_value(alloc, bytes, at, day)?.is_some() {
            return Ok(Some(at));
        }
    }
    Ok(None)
}

#[test]
fn code_files_with_a_byte_changed(rt: HostRuntime) -> Result<(), Fail> {
    let bytes = bytes_of(rt.alloc(), CODE)?;
    let day = first_day().ok_or("no day")?;
    assert!(rt; first_bad_byte(rt.alloc(), bytes.as_slice(), day)?.is_none());
    Ok(())
}

/// Whether a table that is written again has the bytes that were read, up to its end. Only the stamp is another one.
fn is_kept(alloc: Global, bytes: &[u8], table: &Table, day: RunDay) -> bool {
    let Ok(again) = write_table(alloc, table, day.stamp()) else {
        return false;
    };
    let end = again.len().saturating_sub(1);
    4 < end
        && again.get(..1) == bytes.get(..1)
        && again.get(4..end) == bytes.get(4..end)
        && again.get(end..) == Some([26u8].as_slice())
}

/// Whether a table's bytes are refused, or hold no more records than they say and are kept by a write.
fn reads_well(alloc: Global, bytes: &[u8], day: RunDay) -> bool {
    match read_table(alloc, bytes, 1_000_000) {
        Ok(table) => table.rows() <= 1 && is_kept(alloc, bytes, &table, day),
        Err(_) => true,
    }
}

fn first_bad_table_value(
    alloc: Global,
    bytes: &[u8],
    at: usize,
    day: RunDay,
) -> Result<Option<u8>, AllocError> {
    for value in 0..=255u8 {
        let other = changed(alloc, bytes, at, value)?;
        if !reads_well(alloc, other.as_slice(), day) {
            return Ok(Some(value));
        }
    }
    Ok(None)
}

#[test]
fn tables_with_a_byte_changed(rt: HostRuntime) -> Result<(), Fail> {
    let bytes = bytes_of(rt.alloc(), TABLE)?;
    let day = first_day().ok_or("no day")?;
    for at in 0..bytes.len() {
        assert!(rt; first_bad_table_value(rt.alloc(), bytes.as_slice(), at, day)?.is_none());
    }
    Ok(())
}

/// The table with the index, and what they declare.
#[derive(Drop)]
struct KeyedFiles {
    table: Vec<u8>,
    shape: Shape,
}

fn keyed(alloc: Global) -> Result<KeyedFiles, Fail> {
    let table = bytes_of(alloc, KEYED_TABLE)?;
    let entries = [
        MemoryEntry {
            name: "T.DCL",
            bytes: b"TABLE T\nINDEX KI ON T KEY K\n",
        },
        MemoryEntry {
            name: "T.DBF",
            bytes: table.as_slice(),
        },
    ];
    let shape = read_shape(alloc, &mut stored(alloc, &entries), "T.DCL").map_err(|_| "refused")?;
    Ok(KeyedFiles { table, shape })
}

/// Whether the index is stale where it is loaded.
fn loads_stale(alloc: Global, files: &KeyedFiles, bytes: &[u8]) -> bool {
    if !files.shape.is_legal() {
        return false;
    }
    let entries = [
        MemoryEntry {
            name: "T.DBF",
            bytes: files.table.as_slice(),
        },
        MemoryEntry {
            name: "KI.NDX",
            bytes,
        },
    ];
    match load(alloc, &mut stored(alloc, &entries), &files.shape, 1_000_000) {
        Ok(store) => store.keys(0).is_none(),
        Err(_) => false,
    }
}

/// Whether an entry is there, of this key and this record.
fn is_entry(entry: Option<Entry>, key: u8, record: u32) -> bool {
    match entry {
        Some(entry) => entry.key() == [key].as_slice() && entry.number() == record,
        None => false,
    }
}

/// Whether a tree is the original's list.
fn is_original(tree: &mut NdxTree) -> bool {
    tree.len() == 3
        && is_entry(tree.first(), b'B', 2)
        && is_entry(tree.after(b"B", 2), b'C', 3)
        && is_entry(tree.after(b"C", 3), b'Z', 1)
}

/// Whether the bytes are refused, or hold the original's list, or are loaded as a stale index.
fn is_exact_or_stale(alloc: Global, files: &KeyedFiles, bytes: &[u8]) -> bool {
    if bytes.len() > 1024 {
        return false;
    }
    match NdxTree::read(alloc, bytes) {
        Ok(mut tree) => is_original(&mut tree) || loads_stale(alloc, files, bytes),
        Err(_) => true,
    }
}

/// The first value with which byte `at` of the index loads otherwise. The byte is as it was behind the call.
fn first_bad_index_value(
    alloc: Global,
    files: &KeyedFiles,
    bytes: &mut Vec<u8>,
    at: usize,
) -> Option<u8> {
    if at >= bytes.len() {
        return None;
    }
    let before = bytes[at];
    for value in 0..=255u8 {
        bytes[at] = value;
        if !is_exact_or_stale(alloc, files, bytes.as_slice()) {
            return Some(value);
        }
    }
    bytes[at] = before;
    None
}

#[test]
fn indexes_with_a_byte_changed(rt: HostRuntime) -> Result<(), Fail> {
    let files = keyed(rt.alloc())?;
    let mut bytes = bytes_of(rt.alloc(), INDEX)?;
    for at in 0..bytes.len() {
        assert!(rt; first_bad_index_value(rt.alloc(), &files, &mut bytes, at).is_none());
    }
    Ok(())
}
