// The files as they are.
#![tactic(auto)]

use file_access::{MemoryEntry, MemoryFiles, WORKS_FOR_EVER};
use std::alloc::{AllocError, Global};

/// The code file that prints three rows: two slots, a stack of one, three constants, one procedure and two maps. Bytes
/// stand as numbers, with `*` and how often behind those that are repeated, and texts behind a quote.
pub const CODE: &str = "'XBCF 1 0 1 0 2 0 0*6 3 0 0 0 1 0 2 0 15 0
4 1 4 0 2 1 'A 15 0 0
1 0*10 0*2 0 1 0*10 0*2 0
4 0 1 0*10 4*2 0
14 0 1 0*10 4*2 0
1 0*7 3 4 0*6 1 0*7 3 4 1 0*5 64 0*7 1 0 2 0*5 65 2 0*6 2 4 0*6
17 0*3 14 0*3 2 4 1 0*5 3 4 0*6 1 0 1 0*5 3 4 1 0*5 16 0*3 4 0*3 20 0*7";

/// The table of one record, `Ann` in a field NAME of ten bytes.
pub const TABLE: &str = "3 85 1 1 1 0*3 65 0 11 0 0*20
'NAME 0*7 'C 0*4 10 0*15 13 32 'Ann 32*7 26";

/// An index on a field K of one byte, of the keys of records 2, 3 and 1.
pub const INDEX: &str = "1 0*3 2 0*7 1 0 42 0*3 12 0*5 'K 0*487
3 0*7 2 0*3 'B 0*7 3 0*3 'C 0*7 1 0*3 'Z 0*475";

/// The table of the index's three records.
pub const KEYED_TABLE: &str = "3 85 1 1 3 0*3 65 0 2 0 0*20
'K 0*10 'C 0*4 1 0*15 13 32 'Z 32 'B 32 'C 26";

/// Puts a byte so many times.
fn put_times(out: &mut Vec<u8>, byte: u8, times: usize) -> Result<(), AllocError> {
    for _ in 0..times {
        out.push(byte)?;
    }
    Ok(())
}

/// The bytes of a text of numbers and texts.
pub fn bytes_of(alloc: Global, text: &str) -> Result<Vec<u8>, AllocError> {
    let mut out = Vec::new(alloc);
    for word in text.split_whitespace() {
        if let Some(letters) = word.strip_prefix('\'') {
            out.extend_from_slice(letters.as_bytes())?;
        } else {
            let (byte, times) = word.split_once('*').unwrap_or((word, "1"));
            put_times(
                &mut out,
                byte.parse().unwrap_or(0),
                times.parse().unwrap_or(0),
            )?;
        }
    }
    Ok(out)
}

/// The same bytes with one of them changed; as they are where there is none at this place.
pub fn changed(alloc: Global, bytes: &[u8], at: usize, value: u8) -> Result<Vec<u8>, AllocError> {
    let mut copy = Vec::from_slice(alloc, bytes)?;
    if let Some(byte) = copy.get_mut(at) {
        *byte = value;
    }
    Ok(copy)
}

/// Files in memory, on a device that works.
pub fn stored<'a>(alloc: Global, entries: &'a [MemoryEntry<'a>]) -> MemoryFiles<'a> {
    MemoryFiles::new(alloc, entries, WORKS_FOR_EVER)
}
