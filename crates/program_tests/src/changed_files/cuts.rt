// The files cut, and with a byte more.
#![tactic(auto)]

use super::originals::{CODE, INDEX, TABLE, bytes_of};
use ndx_tree::NdxTree;
use std::alloc::{AllocError, Global};
use std::rt::HostRuntime;
use std::test::Fail;
use xcode::decode;

/// What the bytes are read as.
#[derive(Clone, Copy)]
enum Kind {
    Code,
    Table,
    /// An index file of at most two pages.
    Index,
}

/// The fault of bytes, in words; none where they are read.
fn fault_of(alloc: Global, bytes: &[u8], kind: Kind) -> Result<String, AllocError> {
    let none = String::new(alloc);
    match kind {
        Kind::Code => match decode(alloc, bytes) {
            Ok(_) => Ok(none),
            Err(fault) => fault.to_string(alloc),
        },
        Kind::Table => match dbf_file::read(alloc, bytes, 1_000_000) {
            Ok(_) => Ok(none),
            Err(fault) => fault.to_string(alloc),
        },
        Kind::Index if bytes.len() > 1024 => Ok(none),
        Kind::Index => match NdxTree::read(alloc, bytes) {
            Ok(_) => Ok(none),
            Err(fault) => fault.to_string(alloc),
        },
    }
}

/// The fault of a file of so many bytes, where a greatest length stands before each fault.
fn wanted<'a>(faults: &'a str, length: usize) -> &'a str {
    for row in faults.split(',') {
        let (most, fault) = row.split_once(' ').unwrap_or((row, ""));
        if most.parse().is_ok_and(|most: usize| length <= most) {
            return fault;
        }
    }
    "no length"
}

/// The first length, up to that of the file and a byte more, at which another fault is told.
fn first_other(
    alloc: Global,
    text: &str,
    kind: Kind,
    faults: &str,
) -> Result<Option<usize>, AllocError> {
    let bytes = bytes_of(alloc, text)?;
    for length in 0..=bytes.len() {
        let cut = bytes.as_slice().get(..length).unwrap_or(b"");
        if fault_of(alloc, cut, kind)?.as_str() != wanted(faults, length) {
            return Ok(Some(length));
        }
    }
    Ok(None)
}

#[test]
fn files_of_each_length(rt: HostRuntime) -> Result<(), Fail> {
    let alloc = rt.alloc();
    for (text, length) in [(CODE, 216), (TABLE, 77), (INDEX, 1024)] {
        assert_eq!(rt; bytes_of(alloc, text)?.len(), length);
    }
    let faults = "64 Short,75 Truncated,77 ";
    assert_eq!(rt; first_other(alloc, TABLE, Kind::Table, faults)?, None);
    let faults = "511 Head,1023 Reach,1024 ";
    assert_eq!(rt; first_other(alloc, INDEX, Kind::Index, faults)?, None);
    let faults = "3 Magic,5 Version,215 Short,216 ,217 Extra";
    let mut more = String::from_str(alloc, CODE)?;
    more.push_str(" 0")?;
    assert_eq!(rt;
        first_other(alloc, more.as_str(), Kind::Code, faults)?,
        None
    );
    Ok(())
}
