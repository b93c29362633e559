// Files in memory.
#![tactic(auto)]

ghost use Rattle.std.specs.Prelude.{◌≡◌, ◌≤◌, ℕ, true, false, List, [], ◌∷◌, Option, Some};
ghost use Rattle.std.specs.Prelude.{IfOk, OnErr, OnOk, MatchOption, string_bytes};
ghost use Rattle.std.specs.Option.{option_copied};
ghost use Rattle.file_access.specs.Holding.{Rose, HoldsOneThing};
ghost use Rattle.file_access.specs.InMemory.{HoldsFile, HoldsWritten};
ghost use Rattle.file_access.specs.declared.memory_files.MemoryEntry.{MemoryEntry};
ghost use Rattle.file_access.specs.declared.memory_files.WrittenFile.{WrittenFile};

use crate::files::{Device, Files, ReadFault};
use std::alloc::{AllocError, Global};

/// The count of calls of a device that never fails.
pub const WORKS_FOR_EVER: u64 = u64::MAX;

/// A file: its name and its bytes.
#[derive(Clone, Copy, Debug)]
pub struct MemoryEntry<'a> {
    pub name: &'a str,
    pub bytes: &'a [u8],
}

/// A file that was written: its name and its bytes.
#[derive(Drop)]
pub struct WrittenFile {
    pub name: String,
    pub bytes: Vec<u8>,
}

/// Files in memory, on a device that works for so many calls more: first those that were written, the newest in front,
/// then the entries. The first file of a name is the one that is read.
#[derive(Drop)]
pub struct MemoryFiles<'a> {
    pub entries: &'a [MemoryEntry<'a>],
    pub written: Vec<WrittenFile>,
    pub calls: u64,
    pub failures: u64,
}

fn find<'a>(entries: &'a [MemoryEntry<'a>], name: &str) -> Option<&'a [u8]>
    ensures { HoldsFile entries.now name.now (option_copied result) }
{
    for entry in entries {
        if entry.name == name {
            return Some(entry.bytes);
        }
    }
    None
}

fn find_written<'b>(written: &'b [WrittenFile], name: &str) -> Option<&'b [u8]>
    ensures { (es : List MemoryEntry) (found : Option (List ℕ))
        → MatchOption result (HoldsFile es name.now found) (λ bytes. found ≡ Some bytes.now)
        → HoldsWritten written.now es name.now found }
{
    for file in written {
        if file.name.as_str() == name {
            return Some(file.bytes.as_slice());
        }
    }
    None
}

fn written_file(alloc: Global, name: &str, bytes: Vec<u8>) -> Result<WrittenFile, AllocError>
    ensures name { IfOk result (λ file. string_bytes file.name ≡ name.now) }
    ensures bytes { IfOk result (λ file. file.bytes.items ≡ bytes.items) }
{
    let name = String::from_str(alloc, name)?;
    Ok(WrittenFile { name, bytes })
}

impl<'a> MemoryFiles<'a> {
    /// The files of these entries, on a device that works for so many calls more.
    pub fn new(alloc: Global, entries: &'a [MemoryEntry<'a>], calls: u64) -> MemoryFiles<'a>
        ensures entries { result.entries.now ≡ entries.now }
        ensures written { result.written.items ≡ [] }
        ensures calls { result.calls ≡ calls }
        ensures failures { result.failures ≡ 0 }
    {
        MemoryFiles {
            entries,
            written: Vec::new(alloc),
            calls,
            failures: 0,
        }
    }

    /// Lets the device work for so many calls more, and then fail.
    pub fn work_for(&mut self, calls: u64)
        ensures { self.new ≡ record self.old { calls = calls } }
    {
        self.calls = calls;
    }

    /// What the file of a name holds, read beside the device.
    pub fn bytes_of(&self, name: &str) -> Option<&[u8]>
        ensures { HoldsWritten self.now.written.items self.now.entries.now name.now (option_copied result) }
    {
        match find_written(&self.written, name) {
            Some(bytes) => Some(bytes),
            None => find(self.entries, name),
        }
    }

    /// Whether the device works in this call; a failure is counted.
    fn works(&mut self) -> bool
        ensures entries { self.new.entries.now ≡ self.old.entries.now }
        ensures written { self.new.written.items ≡ self.old.written.items }
        ensures works { result ≡ true → self.new.failures ≡ self.old.failures }
        ensures failed { result ≡ false → Rose self.old.failures self.new.failures }
        ensures counted { self.old.failures ≤ self.new.failures }
    {
        if self.calls == 0 {
            self.fail();
            return false;
        }
        if self.calls != WORKS_FOR_EVER {
            self.calls -= 1;
        }
        true
    }

    /// Counts a failure of the device.
    fn fail(&mut self)
        ensures entries { self.new.entries.now ≡ self.old.entries.now }
        ensures written { self.new.written.items ≡ self.old.written.items }
        ensures failed { Rose self.old.failures self.new.failures }
        ensures counted { self.old.failures ≤ self.new.failures }
    {
        self.failures = self.failures.saturating_add(1);
    }

    /// Puts a file in front of those that were written.
    fn put(&mut self, name: &str, bytes: Vec<u8>) -> Result<(), AllocError>
        ensures entries { self.new.entries.now ≡ self.old.entries.now }
        ensures failures { self.new.failures ≡ self.old.failures }
        ensures put { OnOk result ((file : WrittenFile) × (string_bytes file.name ≡ name.now)
            × (file.bytes.items ≡ bytes.items) × (self.new.written.items ≡ file ∷ self.old.written.items)) }
        ensures kept { OnErr result (self.new.written.items ≡ self.old.written.items) }
    {
        let alloc = *self.written.allocator();
        let file = written_file(alloc, name, bytes)?;
        self.written.insert(0, file)?;
        Ok(())
    }
}

impl Files for MemoryFiles<'_> {
    ghost holds = { λ files name found. HoldsWritten files.written.items files.entries.now name found };

    ghost failed = { λ files. files.failures };

    fn read(&mut self, alloc: Global, name: &str, limit: usize) -> Result<Vec<u8>, ReadFault> {
        if !self.works() {
            return Err(ReadFault::Device);
        }
        let Some(bytes) = self.bytes_of(name) else {
            return Err(ReadFault::Absent);
        };
        if limit < bytes.len() {
            return Err(ReadFault::TooLong);
        }
        match Vec::from_slice(alloc, bytes) {
            Ok(copy) => Ok(copy),
            Err(_) => Err(ReadFault::Memory),
        }
    }

    fn replace(&mut self, name: &str, bytes: Vec<u8>) -> Result<(), Device> {
        if !self.works() {
            return Err(Device);
        }
        if self.put(name, bytes).is_err() {
            self.fail();
            return Err(Device);
        }
        Ok(())
    }

    fn failures(&self) -> u64 {
        self.failures
    }
}

/// Files in memory hold one thing alone for each name.
pub fn files_in_memory_hold_one_thing()
    ensures { (written : List WrittenFile) (entries : List MemoryEntry) → HoldsOneThing (HoldsWritten written entries) }
{}
