//! The listing of a table.

ghost use Rattle.std.specs.Prelude.{◌≡◌, ◌+◌, ◌<◌, ◌++◌, true, length, map, IfOk, IfErr, OnOk};
ghost use Rattle.std.specs.List.{flat_map};
ghost use Rattle.dbf_file.specs.Fields.{has_shape};
ghost use Rattle.dbf_file.specs.Rows.{row_at};
ghost use Rattle.screen_lines.specs.Roll.{shown_byte};
ghost use Rattle.file_commands.specs.Lines.{field_line, count_line, cell, cells, row_line, row_lines, table_lines};
ghost use Rattle.file_access.specs.Holding.{SameFiles};
ghost use Rattle.file_commands.specs.Refusals.{RefusalIs, TableFault};
ghost use Rattle.file_commands.specs.Reports.{TableListed};

use crate::lines::{put_decimal, put_right};
use crate::reading::read_table;
use crate::refusal::Refusal;
use dbf_file::laws::{fields_are_good, fields_have_shapes};
use dbf_file::{Field, Table, value};
use file_access::Files;
use std::alloc::{AllocError, Global};
use xvalue::Settings;

#[tactic(auto, unfolding(crate::specs::Lines::field_line))]
fn put_field(alloc: Global, out: &mut Vec<u8>, field: &Field) -> Result<(), AllocError>
    ensures { OnOk result (out.new.items ≡ out.old.items ++ field_line field.now) }
{
    out.extend_from_slice(field.name.as_slice())?;
    out.extend_from_slice(&[b' ', field.letter.code(), b' '])?;
    put_decimal(alloc, out, field.width as usize)?;
    out.push(b' ')?;
    put_decimal(alloc, out, field.decimals as usize)?;
    out.push(b'\n')?;
    Ok(())
}

fn put_fields(alloc: Global, out: &mut Vec<u8>, fields: &[Field]) -> Result<(), AllocError>
    ensures { OnOk result (out.new.items ≡ out.old.items ++ flat_map field_line fields.now) }
{
    for field in fields {
        put_field(alloc, out, field)?;
    }
    Ok(())
}

#[tactic(auto, unfolding(crate::specs::Lines::count_line))]
fn put_count(alloc: Global, out: &mut Vec<u8>, rows: usize) -> Result<(), AllocError>
    ensures { OnOk result (out.new.items ≡ out.old.items ++ count_line rows) }
{
    out.extend_from_slice(b"records ")?;
    put_decimal(alloc, out, rows)?;
    out.push(b'\n')?;
    Ok(())
}

/// A byte as the screen shows it.
fn shown(byte: u8) -> u8
    ensures { result ≡ shown_byte byte }
{
    if byte < 32 || byte == 127 { b' ' } else { byte }
}

fn put_shown(out: &mut Vec<u8>, text: &[u8]) -> Result<(), AllocError>
    ensures { OnOk result (out.new.items ≡ out.old.items ++ map shown_byte text.now) }
{
    for byte in text {
        out.push(shown(*byte))?;
    }
    Ok(())
}

/// A field's text as the screen shows its value, with all settings off.
#[tactic(auto, unfolding(crate::specs::Lines::cell))]
fn put_cell(out: &mut Vec<u8>, field: &Field, text: &[u8]) -> Result<(), AllocError>
    requires shape { has_shape field.now.letter field.now.width field.now.decimals ≡ true }
    requires width { length text.now ≡ field.now.width }
    ensures { OnOk result (out.new.items ≡ out.old.items ++ cell field.now text.now) }
{
    let value = value(field, text);
    put_shown(out, value.shown(Settings::off()).as_slice())
}

/// The fields of row `r`, a blank before each.
fn put_cells(out: &mut Vec<u8>, table: &Table, r: usize) -> Result<(), AllocError>
    requires { r < length table.now.rows }
    ensures { OnOk result (out.new.items ≡ out.old.items
        ++ cells table.now.structure.fields (row_at table.now.rows r).texts) }
{
    fields_are_good();
    fields_have_shapes();
    let _ = table.rows();
    for (f, field) in table.structure().fields().iter().enumerate() {
        out.push(b' ')?;
        put_cell(out, field, table.field(r, f))?;
    }
    Ok(())
}

#[tactic(auto, unfolding(crate::specs::Lines::row_line))]
fn put_row(alloc: Global, out: &mut Vec<u8>, table: &Table, r: usize) -> Result<(), AllocError>
    requires { r < length table.now.rows }
    ensures { OnOk result (out.new.items ≡ out.old.items
        ++ row_line table.now.structure.fields (r + 1) (row_at table.now.rows r)) }
{
    let _ = table.rows();
    put_right(alloc, out, r + 1)?;
    out.push(b' ')?;
    out.push(if table.mark(r) { b'*' } else { b' ' })?;
    put_cells(out, table, r)?;
    out.push(b'\n')?;
    Ok(())
}

fn put_rows(alloc: Global, out: &mut Vec<u8>, table: &Table) -> Result<(), AllocError>
    ensures { OnOk result (out.new.items ≡ out.old.items ++ row_lines table.now.structure.fields 1 table.now.rows) }
{
    for r in 0..table.rows() {
        put_row(alloc, out, table, r)?;
    }
    Ok(())
}

fn lines_of(alloc: Global, table: &Table) -> Result<Vec<u8>, AllocError>
    ensures { IfOk result (λ lines. lines.items ≡ table_lines table.now.structure.fields table.now.rows) }
{
    let mut out = Vec::new(alloc);
    put_fields(alloc, &mut out, table.structure().fields())?;
    put_count(alloc, &mut out, table.rows())?;
    put_rows(alloc, &mut out, table)?;
    Ok(out)
}

/// The listing of the table in a file, of at most a million rows: a line for each field, the number of rows, and a line
/// for each row.
pub fn list_table<'a, F: Files>(
    alloc: Global,
    files: &mut F,
    name: &'a str,
) -> Result<Vec<u8>, Refusal<'a>>
    ensures listed { IfOk result (λ lines. TableListed table_lines (F.holds files.old name.now) lines.items) }
    ensures refused { IfErr result (RefusalIs (TableFault (F.holds files.old name.now)) (F.failed files.old)
        (F.failed files.new) name.now) }
    ensures kept { SameFiles (F.holds files.old) (F.holds files.new) }
{
    let table = read_table(alloc, files, name)?;
    match lines_of(alloc, &table) {
        Ok(lines) => Ok(lines),
        Err(_) => Err(Refusal::Memory),
    }
}
