// Files in memory: written over entries, and on a device that fails.
#![tactic(auto)]

use file_access::{Device, Files, MemoryEntry, MemoryFiles, ReadFault, WORKS_FOR_EVER};
use std::alloc::Global;

/// Two files that a device holds at first.
fn entries() -> [MemoryEntry<'static>; 2] {
    [
        MemoryEntry {
            name: "A",
            bytes: b"one",
        },
        MemoryEntry {
            name: "B",
            bytes: b"two",
        },
    ]
}

fn holds(files: &MemoryFiles<'_>, name: &str, bytes: &[u8]) -> bool {
    match files.bytes_of(name) {
        Some(held) => held == bytes,
        None => false,
    }
}

/// How many bytes are read of a file.
fn reads(
    alloc: Global,
    files: &mut MemoryFiles<'_>,
    name: &str,
    limit: usize,
) -> Result<usize, ReadFault> {
    match files.read(alloc, name, limit) {
        Ok(bytes) => Ok(bytes.len()),
        Err(fault) => Err(fault),
    }
}

fn replaces(
    alloc: Global,
    files: &mut MemoryFiles<'_>,
    name: &str,
    bytes: &[u8],
) -> Result<(), Device> {
    match Vec::from_slice(alloc, bytes) {
        Ok(bytes) => files.replace(name, bytes),
        Err(_) => Err(Device),
    }
}

/// Whether what was written last is what a file holds.
fn last_written_is_held(alloc: Global) -> bool {
    let entries = entries();
    let mut files = MemoryFiles::new(alloc, &entries, WORKS_FOR_EVER);
    let written = replaces(alloc, &mut files, "A", b"three").is_ok()
        && replaces(alloc, &mut files, "C", b"").is_ok()
        && replaces(alloc, &mut files, "A", b"four").is_ok();
    written
        && holds(&files, "A", b"four")
        && holds(&files, "B", b"two")
        && holds(&files, "C", b"")
        && files.bytes_of("D").is_none()
        && reads(alloc, &mut files, "A", 4) == Ok(4)
        && reads(alloc, &mut files, "A", 3) == Err(ReadFault::TooLong)
        && reads(alloc, &mut files, "D", 3) == Err(ReadFault::Absent)
        && files.failures() == 0
}

/// Whether a device fails behind so many calls, counts that and changes no file, and works again when it is told to.
fn fails_behind_its_calls(alloc: Global) -> bool {
    let entries = entries();
    let mut files = MemoryFiles::new(alloc, &entries, 2);
    let failed = reads(alloc, &mut files, "A", 3) == Ok(3)
        && replaces(alloc, &mut files, "A", b"x") == Ok(())
        && reads(alloc, &mut files, "A", 3) == Err(ReadFault::Device)
        && replaces(alloc, &mut files, "B", b"y") == Err(Device)
        && holds(&files, "A", b"x")
        && holds(&files, "B", b"two")
        && files.failures() == 2;
    files.work_for(1);
    failed
        && reads(alloc, &mut files, "A", 3) == Ok(1)
        && reads(alloc, &mut files, "A", 3) == Err(ReadFault::Device)
        && files.failures() == 3
}

#[test]
fn files_in_memory(rt: HostRuntime) {
    assert!(rt; last_written_is_held(rt.alloc()));
    assert!(rt; fails_behind_its_calls(rt.alloc()));
}
