//! Tables read from their files.

ghost use Rattle.std.specs.Prelude.{◌≡◌, ◌≤◌, true, Some, length, IfOk, IfErr};
ghost use Rattle.std.specs.List.{AllZip};
ghost use Rattle.file_access.specs.Holding.{Rose, SameFiles};
ghost use Rattle.shape.specs.Names.{is_file_name};
ghost use Rattle.shape.specs.Whole.{is_shape};
ghost use Rattle.table_files.specs.Loading.{IsTableOf, IsTableIn};
ghost use Rattle.table_files.specs.Refusals.{BytesRefused, RefusedIn, TableRefused, LoadRefused};

use crate::fields::are_declared;
use crate::names::{FileName, table_file_name};
use crate::refusal::{FilesRefusal, TableFault};
use dbf_file::{DbfFault, Table};
use file_access::{FILE_LIMIT, Files, ReadFault};
use shape::{Shape, TableShape};
use std::alloc::Global;

/// The bytes of a table's file.
fn bytes_of<F: Files>(alloc: Global, files: &mut F, name: FileName) -> Result<Vec<u8>, FilesRefusal>
    ensures held { IfOk result (λ bytes. F.holds files.old name.bytes (Some bytes.items)) }
    ensures short { IfOk result (λ bytes. length bytes.items ≤ 67108864) }
    ensures refused { IfErr result (BytesRefused (F.holds files.old) name.bytes
        (Rose (F.failed files.old) (F.failed files.new))) }
    ensures kept { SameFiles (F.holds files.old) (F.holds files.new) }
    ensures counted { F.failed files.old ≤ F.failed files.new }
{
    match files.read(alloc, name.as_str(), FILE_LIMIT) {
        Ok(bytes) => Ok(bytes),
        Err(ReadFault::Absent) => Err(FilesRefusal::Refused {
            name,
            fault: TableFault::Absent,
        }),
        Err(ReadFault::TooLong) => Err(FilesRefusal::Refused {
            name,
            fault: TableFault::TooLong,
        }),
        Err(ReadFault::Device) => Err(FilesRefusal::Disk { name }),
        Err(ReadFault::Memory) => Err(FilesRefusal::Memory),
    }
}

/// The declared table in the bytes of its file.
fn table_in(
    alloc: Global,
    name: FileName,
    bytes: Vec<u8>,
    declared: &TableShape,
    limit: u32,
) -> Result<Table, FilesRefusal>
    ensures table { IfOk result (IsTableIn bytes.items limit declared.now) }
    ensures refused { IfErr result (RefusedIn limit declared.now name.bytes bytes.items) }
{
    let table = match dbf_file::read_in_place(alloc, bytes, limit as usize) {
        Ok(table) => table,
        Err(DbfFault::Memory) => return Err(FilesRefusal::Memory),
        Err(fault) => {
            return Err(FilesRefusal::Refused {
                name,
                fault: TableFault::OfTable(fault),
            });
        }
    };
    if !are_declared(table.structure().fields(), declared.fields.as_slice()) {
        return Err(FilesRefusal::Refused {
            name,
            fault: TableFault::Structure,
        });
    }
    Ok(table)
}

/// A declared table, read from its file.
fn load_table<F: Files>(
    alloc: Global,
    files: &mut F,
    declared: &TableShape,
    limit: u32,
) -> Result<Table, FilesRefusal>
    requires { is_file_name declared.now.name.items ≡ true }
    ensures loaded { IfOk result (IsTableOf (F.holds files.old) limit declared.now) }
    ensures refused { IfErr result (TableRefused (F.holds files.old) limit declared.now
        (Rose (F.failed files.old) (F.failed files.new))) }
    ensures kept { SameFiles (F.holds files.old) (F.holds files.new) }
    ensures counted { F.failed files.old ≤ F.failed files.new }
{
    let name = table_file_name(declared);
    let bytes = bytes_of(alloc, files, name)?;
    table_in(alloc, name, bytes, declared, limit)
}

/// The declared tables in their order, each read from its file.
pub(crate) fn load_tables<F: Files>(
    alloc: Global,
    files: &mut F,
    shape: &Shape,
    limit: u32,
) -> Result<Vec<Table>, FilesRefusal>
    requires { is_shape shape.now ≡ true }
    ensures loaded { IfOk result (λ tables. AllZip
        (IsTableOf (F.holds files.old) limit) shape.now.tables tables.items) }
    ensures refused { IfErr result (LoadRefused (F.holds files.old) shape.now limit
        (Rose (F.failed files.old) (F.failed files.new))) }
    ensures kept { SameFiles (F.holds files.old) (F.holds files.new) }
    ensures counted { F.failed files.old ≤ F.failed files.new }
{
    let mut tables = Vec::with_capacity(alloc, shape.tables.len())?;
    for t in 0..shape.tables.len() {
        let table = load_table(alloc, files, shape.tables.get(t), limit)?;
        tables.push(table)?;
    }
    Ok(tables)
}
