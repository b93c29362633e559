//! Reads files: code files, tables, and any others.

ghost use Rattle.std.specs.Prelude.{◌≤◌, Some, length, IfOk, IfErr};
ghost use Rattle.file_access.specs.Holding.{SameFiles};
ghost use Rattle.file_commands.specs.Refusals.{RefusalIs, CodeFileFault, FileFault, TableFault};
ghost use Rattle.file_commands.specs.Reports.{IsCodeFile, HoldsTable};

use crate::refusal::{Fault, Refusal};
use dbf_file::{DbfFault, Table, read};
use file_access::{FILE_LIMIT, Files, ReadFault};
use std::alloc::Global;
use xcode::{CodeFault, LegalCode, decode};

/// The most rows of a table that is listed.
const ROW_LIMIT: usize = 1_000_000;

/// The bytes of a file of at most 64 MiB.
pub(crate) fn read_bytes<'a, F: Files>(
    alloc: Global,
    files: &mut F,
    name: &'a str,
) -> Result<Vec<u8>, Refusal<'a>>
    ensures held { IfOk result (λ bytes. F.holds files.old name.now (Some bytes.items)) }
    ensures short { IfOk result (λ bytes. length bytes.items ≤ 67108864) }
    ensures refused { IfErr result (RefusalIs (FileFault (F.holds files.old name.now)) (F.failed files.old)
        (F.failed files.new) name.now) }
    ensures kept { SameFiles (F.holds files.old) (F.holds files.new) }
    ensures counted { F.failed files.old ≤ F.failed files.new }
{
    match files.read(alloc, name, FILE_LIMIT) {
        Ok(bytes) => Ok(bytes),
        Err(ReadFault::Absent) => Err(Refusal::Refused {
            name,
            fault: Fault::Absent,
        }),
        Err(ReadFault::TooLong) => Err(Refusal::Refused {
            name,
            fault: Fault::TooLong,
        }),
        Err(ReadFault::Device) => Err(Refusal::Disk { name }),
        Err(ReadFault::Memory) => Err(Refusal::Memory),
    }
}

/// The code in a file. Want of memory may be told before a fault that would have been found later.
pub fn read_code<'a, F: Files>(
    alloc: Global,
    files: &mut F,
    name: &'a str,
) -> Result<LegalCode, Refusal<'a>>
    ensures found { IfOk result (λ code. IsCodeFile (F.holds files.old name.now) code) }
    ensures refused { IfErr result (RefusalIs (CodeFileFault (F.holds files.old name.now)) (F.failed files.old)
        (F.failed files.new) name.now) }
    ensures kept { SameFiles (F.holds files.old) (F.holds files.new) }
    ensures counted { F.failed files.old ≤ F.failed files.new }
{
    let bytes = read_bytes(alloc, files, name)?;
    match decode(alloc, bytes.as_slice()) {
        Ok(code) => Ok(code),
        Err(CodeFault::Memory) => Err(Refusal::Memory),
        Err(fault) => Err(Refusal::Refused {
            name,
            fault: Fault::OfCode(fault),
        }),
    }
}

/// The table in a file, of at most a million rows.
pub fn read_table<'a, F: Files>(
    alloc: Global,
    files: &mut F,
    name: &'a str,
) -> Result<Table, Refusal<'a>>
    ensures found { IfOk result (λ table. HoldsTable (F.holds files.old name.now) table) }
    ensures refused { IfErr result (RefusalIs (TableFault (F.holds files.old name.now)) (F.failed files.old)
        (F.failed files.new) name.now) }
    ensures kept { SameFiles (F.holds files.old) (F.holds files.new) }
{
    let bytes = read_bytes(alloc, files, name)?;
    match read(alloc, bytes.as_slice(), ROW_LIMIT) {
        Ok(table) => Ok(table),
        Err(DbfFault::Memory) => Err(Refusal::Memory),
        Err(fault) => Err(Refusal::Refused {
            name,
            fault: Fault::OfTable(fault),
        }),
    }
}
