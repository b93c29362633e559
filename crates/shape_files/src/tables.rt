//! Fields of declared tables, from their files.

ghost use Rattle.std.specs.Prelude.{◌≡◌, ◌≤◌, ◌⊎◌, Some, length, map, IfErr, IfOk};
ghost use Rattle.file_access.specs.Holding.{SameFiles};
ghost use Rattle.shape_files.specs.declared.refusal.LineFault.TheVariants as fault;
ghost use Rattle.shape_files.specs.declared.refusal.LineRefusal.TheVariants as line;
ghost use Rattle.shape_files.specs.Refusals.{FieldsRefusalIs, HoldsNoTable};
ghost use Rattle.shape_files.specs.Shapes.{HasFields, IsTableWithFields, file_name, in_capitals, plain_field};

use crate::names::file_of;
use crate::refusal::{LineFault, LineRefusal};
use dbf_file::{DbfFault, Field, read};
use file_access::{FILE_LIMIT, Files, ReadFault};
use prg_expr::name_of;
use shape::{Name, copy_of_name};
use std::alloc::{AllocError, Global};

/// The most rows of a table.
const MOST_ROWS: usize = 1_000_000;

/// The same field with its name in capitals.
fn with_capitals(field: &Field) -> Field
    ensures { plain_field result ≡ in_capitals field.now }
{
    Field {
        name: name_of(field.name.as_slice()),
        letter: field.letter,
        width: field.width,
        decimals: field.decimals,
    }
}

/// The same fields with their names in capitals.
pub fn capital_fields(alloc: Global, fields: &[Field]) -> Result<Vec<Field>, AllocError>
    ensures { IfOk result (λ copies. map plain_field copies.items ≡ map in_capitals fields.now) }
{
    let mut copies = Vec::with_capacity(alloc, fields.len())?;
    for field in fields {
        copies.push(with_capitals(field))?;
    }
    Ok(copies)
}

/// The bytes of the file of the table of that name.
fn table_bytes<F: Files>(alloc: Global, files: &mut F, name: &Name) -> Result<Vec<u8>, LineRefusal>
    ensures held { IfOk result (λ bytes. F.holds files.old (file_name name.now.items) (Some bytes.items)) }
    ensures short { IfOk result (λ bytes. length bytes.items ≤ 67108864) }
    ensures refused { IfErr result (FieldsRefusalIs (F.holds files.old) name.now.items (F.failed files.old)
        (F.failed files.new)) }
    ensures counted { F.failed files.old ≤ F.failed files.new }
    ensures kept { SameFiles (F.holds files.old) (F.holds files.new) }
{
    let Some(file) = file_of(name.as_slice()) else {
        return Err(LineRefusal::Fault(LineFault::Table));
    };
    match files.read(alloc, file.as_str(), FILE_LIMIT) {
        Ok(bytes) => Ok(bytes),
        Err(ReadFault::Device) => Err(LineRefusal::Disk(copy_of_name(name))),
        Err(ReadFault::Memory) => Err(LineRefusal::Memory),
        Err(ReadFault::Absent) => Err(LineRefusal::Fault(LineFault::Table)),
        Err(ReadFault::TooLong) => Err(LineRefusal::Fault(LineFault::Table)),
    }
}

/// The fields of the table in a file, with their names in capitals.
fn fields_in(alloc: Global, bytes: &[u8]) -> Result<Vec<Field>, LineRefusal>
    ensures fields { IfOk result (λ fields. IsTableWithFields bytes.now fields.items) }
    ensures refused { IfErr result (λ why. (why ≡ line.Memory)
        ⊎ ((why ≡ line.Fault fault.Table) × HoldsNoTable bytes.now)) }
{
    match read(alloc, bytes, MOST_ROWS) {
        Ok(table) => Ok(capital_fields(alloc, table.structure().fields())?),
        Err(fault) => match fault {
            DbfFault::Memory => Err(LineRefusal::Memory),
            _ => Err(LineRefusal::Fault(LineFault::Table)),
        },
    }
}

/// The fields of the table of that name, with their names in capitals.
pub fn read_fields<F: Files>(
    alloc: Global,
    files: &mut F,
    name: &Name,
) -> Result<Vec<Field>, LineRefusal>
    ensures fields { IfOk result (λ fields. HasFields (F.holds files.old (file_name name.now.items)) fields.items) }
    ensures refused { IfErr result (FieldsRefusalIs (F.holds files.old) name.now.items (F.failed files.old)
        (F.failed files.new)) }
    ensures counted { F.failed files.old ≤ F.failed files.new }
    ensures kept { SameFiles (F.holds files.old) (F.holds files.new) }
{
    match table_bytes(alloc, files, name) {
        Ok(bytes) => fields_in(alloc, bytes.as_slice()),
        Err(refusal) => Err(refusal),
    }
}
