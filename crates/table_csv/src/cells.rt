//! Cells of rows.

ghost use Rattle.std.specs.Prelude.{◌≡◌, ◌≤◌, ◌<◌, ◌++◌, ◌∷◌, [], ◌==◌, length, OnOk, IfOk, IsTrue};
ghost use Rattle.std.specs.List.{list_any, prefix_len, suffix_len};
ghost use Rattle.csv.specs.Records.{fields_of, partial_of};
ghost use Rattle.dbf_file.specs.Rows.{row_at};
ghost use Rattle.dbf_file.specs.Values.{day_in, is_yes};
ghost use Rattle.std.specs.Prelude.{slice_index};
ghost use Rattle.std.specs.Option.{is_some};
ghost use Rattle.dbf_file.specs.declared.field.Letter.TheVariants.{D, L};
ghost use Rattle.table_csv.specs.Cells as spec;

use csv::ByteRecord;
use dbf_file::{Field, Letter, Table, value};
use std::alloc::{AllocError, Global};
use xvalue::Value;

fn is_blank(byte: u8) -> bool
    ensures { result ≡ spec.is_blank byte }
{
    byte == b' '
}

/// How many blanks stand in front.
fn blanks_in_front(text: &[u8]) -> usize
    ensures value { result ≡ prefix_len spec.is_blank text.now }
    ensures within { result ≤ length text.now }
{
    text.iter().take_while(|byte| is_blank(**byte)).count()
}

/// How many blanks stand at the end.
fn blanks_at_end(text: &[u8]) -> usize
    ensures value { result ≡ suffix_len spec.is_blank text.now }
    ensures within { result ≤ length text.now }
{
    text.iter()
        .rev()
        .take_while(|byte| is_blank(**byte))
        .count()
}

fn without_end(text: &[u8]) -> &[u8]
    ensures { result.now ≡ spec.end_trimmed text.now }
{
    &text[..text.len() - blanks_at_end(text)]
}

fn without_front(text: &[u8]) -> &[u8]
    ensures { result.now ≡ spec.without_front text.now }
{
    &text[blanks_in_front(text)..]
}

fn has_asterisk(text: &[u8]) -> bool
    ensures { result ≡ list_any (λ byte. byte == 42) text.now }
{
    text.iter().any(|byte| *byte == b'*')
}

#[tactic(auto, unfolding(crate::specs::Cells::number_cell))]
fn number_cell(text: &[u8]) -> &[u8]
    ensures { result.now ≡ spec.number_cell text.now }
{
    if has_asterisk(text) {
        return &[];
    }
    without_front(without_end(text))
}

/// The eight digits of a day with hyphens.
fn hyphened(alloc: Global, text: &[u8]) -> Result<Vec<u8>, AllocError>
    requires { length text.now ≡ 8 }
    ensures { IfOk result (λ day. day.items ≡ spec.hyphened text.now) }
{
    let mut day = Vec::with_capacity(alloc, 10)?;
    day.extend_from_slice(&text[..4])?;
    day.push(b'-')?;
    day.extend_from_slice(&text[4..6])?;
    day.push(b'-')?;
    day.extend_from_slice(&text[6..])?;
    Ok(day)
}

/// Whether a text is read as a day that isn't blank.
#[tactic(auto, unfolding(dbf_file::specs::Values::value_of))]
fn is_day(field: &Field, text: &[u8]) -> bool
    requires { field.now.letter ≡ D }
    ensures value { result ≡ is_some (day_in text.now) }
    ensures length { IsTrue result → length text.now ≡ 8 }
{
    match value(field, text) {
        Value::Date(day) => day.parts().is_some(),
        _ => false,
    }
}

#[tactic(auto, unfolding(crate::specs::Cells::day_cell))]
fn day_cell(alloc: Global, field: &Field, text: &[u8]) -> Result<Vec<u8>, AllocError>
    requires { field.now.letter ≡ D }
    ensures { IfOk result (λ day. day.items ≡ spec.day_cell text.now) }
{
    if is_day(field, text) {
        hyphened(alloc, text)
    } else {
        Ok(Vec::new(alloc))
    }
}

/// Whether a text is read as true.
#[tactic(auto, unfolding(dbf_file::specs::Values::value_of))]
fn is_true(field: &Field, text: &[u8]) -> bool
    requires { field.now.letter ≡ L }
    ensures { result ≡ is_yes (slice_index text.now 0) }
{
    match value(field, text) {
        Value::Logical(truth) => truth,
        _ => false,
    }
}

#[tactic(auto, unfolding(crate::specs::Cells::truth_cell))]
fn truth_cell(field: &Field, text: &[u8]) -> &'static [u8]
    requires { field.now.letter ≡ L }
    ensures { result.now ≡ spec.truth_cell text.now }
{
    if is_true(field, text) {
        b"true"
    } else {
        b"false"
    }
}

/// Puts the cell of a field's text behind the others.
#[tactic(auto, unfolding(crate::specs::Cells::csv_cell))]
fn put_cell(
    alloc: Global,
    line: &mut ByteRecord,
    field: &Field,
    text: &[u8],
) -> Result<(), AllocError>
    requires { partial_of line.old ≡ [] }
    ensures cells { OnOk result (fields_of line.new ≡ fields_of line.old ++ spec.csv_cell field.now text.now ∷ []) }
    ensures whole { OnOk result (partial_of line.new ≡ []) }
{
    match field.letter {
        Letter::C => line.push_field(without_end(text)),
        Letter::N => line.push_field(number_cell(text)),
        Letter::D => line.push_field(day_cell(alloc, field, text)?.as_slice()),
        Letter::L => line.push_field(truth_cell(field, text)),
    }
}

/// The cells of the fields of row `r`.
fn put_cells(
    alloc: Global,
    line: &mut ByteRecord,
    table: &Table,
    r: usize,
) -> Result<(), AllocError>
    requires row { r < length table.now.rows }
    requires whole { partial_of line.old ≡ [] }
    ensures cells { OnOk result (fields_of line.new ≡ fields_of line.old
        ++ spec.csv_cells table.now.structure.fields (row_at table.now.rows r).texts) }
    ensures whole { OnOk result (partial_of line.new ≡ []) }
{
    let _ = table.rows();
    for (f, field) in table.structure().fields().iter().enumerate() {
        put_cell(alloc, line, field, table.field(r, f))?;
    }
    Ok(())
}

/// The line of row `r`, in the place of another line.
pub(crate) fn put_row(
    alloc: Global,
    line: &mut ByteRecord,
    table: &Table,
    r: usize,
) -> Result<(), AllocError>
    requires { r < length table.now.rows }
    ensures { OnOk result (fields_of line.new ≡ spec.csv_line table.now.structure.fields (row_at table.now.rows r)) }
{
    line.clear();
    let _ = table.rows();
    line.push_field(if table.mark(r) { b"*" } else { b"" })?;
    put_cells(alloc, line, table, r)
}

/// The line of names.
pub(crate) fn names_line(alloc: Global, fields: &[Field]) -> Result<ByteRecord, AllocError>
    ensures { IfOk result (λ line. fields_of line ≡ spec.names_line fields.now) }
{
    let mut line = ByteRecord::new(alloc);
    line.push_field(b"DELETED")?;
    for field in fields {
        line.push_field(field.name.as_slice())?;
    }
    Ok(line)
}
