// Code files of every item: written, read, cut and changed.

use crate::codes::hand::{Plan, code_of};
use code_items::Version;
use std::alloc::{AllocError, Global};
use std::test::Fail;
use xcode::{CodeFault, LegalCode, decode, encode};

/// A code with tables, indexes, lists, constants, a filter, two procedures and maps.
fn whole(version: Version) -> Plan<'static> {
    Plan {
        version,
        maps: "2 Opened,4 TextInSlot",
        main: "OPEN 0 1; JUMP 2; CLOSEALL; END; END",
        level: 1,
        other: "RETURN",
        filter: "ROWFIELD 0; LOAD T 0; FUN 9",
    }
}

/// The file of a plan's code; empty where the code has none.
fn file_of(alloc: Global, plan: Plan<'_>) -> Result<Vec<u8>, AllocError> {
    let Some(code) = LegalCode::tested(code_of(alloc, plan)?) else {
        return Ok(Vec::new(alloc));
    };
    encode(alloc, &code)
}

fn fault_of(alloc: Global, bytes: &[u8]) -> Option<CodeFault> {
    decode(alloc, bytes).err()
}

/// The fault of a file cut to so many bytes.
fn fault_of_cut(length: usize) -> CodeFault {
    if length < 4 {
        return CodeFault::Magic;
    }
    if length < 6 {
        return CodeFault::Version;
    }
    CodeFault::Short
}

/// The least length, up to that of the file, at which a cut isn't told as such.
fn first_wrong_cut(alloc: Global, file: &[u8]) -> Option<usize> {
    for length in 0..file.len() {
        if fault_of(alloc, &file[..length]) != Some(fault_of_cut(length)) {
            return Some(length);
        }
    }
    None
}

#[test]
fn files_read_back(rt: HostRuntime) -> Result<(), Fail> {
    let alloc = rt.alloc();
    for version in [Version::One, Version::Two] {
        let file = file_of(alloc, whole(version))?;
        assert!(rt; 26 < file.len());
        match decode(alloc, file.as_slice()) {
            Ok(code) => {
                let again = encode(alloc, &code)?;
                assert!(rt; again.as_slice() == file.as_slice());
            }
            Err(_) => assert!(rt; false),
        }
    }
    Ok(())
}

#[test]
fn each_cut_is_short(rt: HostRuntime) -> Result<(), Fail> {
    let alloc = rt.alloc();
    let mut file = file_of(alloc, whole(Version::Two))?;
    assert!(rt; first_wrong_cut(alloc, file.as_slice()).is_none());
    file.push(0)?;
    assert!(rt; fault_of(alloc, file.as_slice()) == Some(CodeFault::Extra));
    Ok(())
}

/// Changed bytes, each a place and a byte, and the fault of the file that has it there. `*` begins a remark.
const CHANGES: &str = "\
* The header: version, stack bound, slots, tables, procedures.
0 89 Magic
4 3 Version
6 65 Limit
9 2 Limit
10 33 Limit
20 0 Limit
* The first table's name, and its field's name, letter, width and decimals; the second's name is the first's.
27 116 Shape
31 107 Shape
32 88 Shape
33 0 Shape
34 1 Shape
36 84 Shape
* The first index's name, table, field and capitals; the second's name is the first's.
45 49 Shape
47 2 Shape
49 1 Shape
50 2 Shape
50 1 none
53 73 Shape
* The first list: an index twice, one of another table, one that isn't there.
66 1 Shape
67 2 Shape
67 3 Shape
* Constants: the kind, a truth value, a number's decimals and sign.
72 9 Shape
73 2 Shape
78 16 Shape
79 2 Shape
79 1 none
* The filter's table, length, slot and kind; a need has a kind.
88 2 Shape
89 4 Shape
93 2 Shape
94 5 Shape
94 0 Shape
* The main procedure's length and level, its entry state's area and slot, its exit state's area and slot.
95 6 Shape
97 21 Limit
98 2 Shape
109 4 Shape
112 11 Shape
112 2 none
123 5 Shape
* The first map's place, and its first work area's table, list, order and filter; the second map's place and slot.
157 6 Shape
160 3 Shape
161 2 Shape
162 3 Shape
162 2 none
163 2 Shape
163 1 none
176 2 Shape
189 9 Shape
* Instructions: operations, unused operands, a kind, a function.
192 25 Operation
193 1 Operation
201 1 Operation
210 1 Operation
212 1 Operation
249 5 Operation
257 61 Operation
257 10 none
";

fn number_of(text: &str) -> usize {
    text.parse().unwrap_or(0)
}

/// Whether the file with another byte at a place has the fault that a row says.
fn is_told(alloc: Global, row: &str) -> Result<bool, AllocError> {
    let (place, rest) = row.split_once(' ').unwrap_or((row, ""));
    let (byte, wanted) = rest.split_once(' ').unwrap_or((rest, ""));
    let mut file = file_of(alloc, whole(Version::Two))?;
    if let Some(there) = file.get_mut(number_of(place)) {
        *there = (number_of(byte) & 0xff) as u8;
    }
    match fault_of(alloc, file.as_slice()) {
        Some(fault) => Ok(fault.to_string(alloc)?.as_str() == wanted),
        None => Ok(wanted == "none"),
    }
}

/// The first row whose fault isn't told.
fn first_untold<'a>(alloc: Global, rows: &'a str) -> Result<Option<&'a str>, AllocError> {
    for row in rows.lines() {
        if !row.starts_with('*') && !is_told(alloc, row)? {
            return Ok(Some(row));
        }
    }
    Ok(None)
}

#[test]
fn changed_bytes_are_told(rt: HostRuntime) -> Result<(), Fail> {
    assert_eq!(rt; first_untold(rt.alloc(), CHANGES)?, None);
    Ok(())
}
