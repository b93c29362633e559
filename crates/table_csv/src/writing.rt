//! The lines of a table written.

ghost use Rattle.std.specs.Prelude.{◌≡◌, ◌++◌, ℕ, List, [], IfOk, OnOk};
ghost use Rattle.csv.specs.Records.{fields_of};
ghost use Rattle.csv.specs.Writing.{default_writer, row_text};
ghost use Rattle.table_csv.specs.Cells.{csv_text};
ghost use Rattle.table_csv.specs.Written.{HasWritten};

use crate::cells::{names_line, put_row};
use csv::{ByteRecord, Writer, WriterBuilder};
use dbf_file::Table;
use std::alloc::{AllocError, Global};

/// A writer that has written nothing.
fn new_writer(alloc: Global) -> Writer<Vec<u8>>
    ensures { HasWritten [] result }
{
    WriterBuilder::new().from_writer(Vec::new(alloc))
}

/// Writes a line behind the others.
fn put_line(writer: &mut Writer<Vec<u8>>, line: &ByteRecord) -> Result<(), AllocError>
    ensures { OnOk result ((text : List ℕ) → HasWritten text writer.old
        → HasWritten (text ++ row_text default_writer (fields_of line.now)) writer.new) }
{
    match writer.write_byte_record(line) {
        Ok(()) => Ok(()),
        Err(_) => Err(AllocError),
    }
}

/// What was written.
fn text_of(writer: Writer<Vec<u8>>) -> Result<Vec<u8>, AllocError>
    ensures { IfOk result (λ written. (text : List ℕ) → HasWritten text writer → written.items ≡ text) }
{
    match writer.into_inner() {
        Ok(text) => Ok(text),
        Err(_) => Err(AllocError),
    }
}

/// The lines of a table as comma-separated values.
pub fn csv_of(alloc: Global, table: &Table) -> Result<Vec<u8>, AllocError>
    ensures { IfOk result (λ text. text.items ≡ csv_text table.now.structure.fields table.now.rows) }
{
    let mut writer = new_writer(alloc);
    let mut line = names_line(alloc, table.structure().fields())?;
    put_line(&mut writer, &line)?;
    for r in 0..table.rows() {
        put_row(alloc, &mut line, table, r)?;
        put_line(&mut writer, &line)?;
    }
    let text = text_of(writer)?;
    Ok(text)
}
