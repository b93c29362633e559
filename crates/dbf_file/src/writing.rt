//! The bytes of a table's file, part by part.

ghost use Rattle.std.specs.Prelude.{◌≡◌, ℕ, ◌*◌, ◌^◌, ◌<◌, ◌≤◌, ◌++◌, ◌∷◌, ◌==◌, [], List, length, drop};
ghost use Rattle.std.specs.Prelude.{slice_index, replicate, OnOk};
ghost use Rattle.dbf_file.specs.Numbers.{number_text};
ghost use Rattle.dbf_file.specs.Fields.{size_of as size_of_fields};
ghost use Rattle.dbf_file.specs.Descriptors.{descriptor_text, descriptors_text};
ghost use Rattle.dbf_file.specs.Rows.{mark_byte as mark_byte_of, rows_in, rows_text};

use crate::descriptors::END;
use crate::field::{Field, MAX_NAME};
use crate::reading::{LIVE, MARKED, VERSION};
use crate::stamp::Stamp;
use byteorder::{ByteOrder, LittleEndian};
use std::alloc::AllocError;

/// The byte of a mark.
pub(crate) fn mark_byte(marked: bool) -> u8
    ensures { result ≡ mark_byte_of marked }
{
    if marked { MARKED } else { LIVE }
}

/// Writes the number in two bytes behind what is written.
#[tactic(auto, unfolding(crate::specs::Numbers::number_text))]
fn put_two(out: &mut Vec<u8>, number: u16) -> Result<(), AllocError>
    ensures { OnOk result (out.new.items ≡ out.old.items ++ number_text 2 number) }
{
    let mut bytes = [0; 2];
    LittleEndian::write_u16(&mut bytes, number);
    out.extend_from_slice(&bytes)
}

/// Writes the number in four bytes behind what is written.
#[tactic(auto, unfolding(crate::specs::Numbers::number_text))]
fn put_four(out: &mut Vec<u8>, number: u32) -> Result<(), AllocError>
    ensures { OnOk result (out.new.items ≡ out.old.items ++ number_text 4 number) }
{
    let mut bytes = [0; 4];
    LittleEndian::write_u32(&mut bytes, number);
    out.extend_from_slice(&bytes)
}

/// Writes the first twelve bytes of a file: version, stamp, count of rows, lengths of header and record.
pub(crate) fn put_front(
    out: &mut Vec<u8>,
    stamp: Stamp,
    rows: usize,
    header: usize,
    size: usize,
) -> Result<(), AllocError>
    requires rows { rows < 2 ^ 32 }
    requires header { header < 2 ^ 16 }
    requires size { size < 2 ^ 16 }
    ensures { OnOk result (out.new.items
        ≡ (((out.old.items ++ 3 ∷ stamp.year ∷ stamp.month ∷ stamp.day ∷ []) ++ number_text 4 rows)
        ++ number_text 2 header) ++ number_text 2 size) }
{
    out.extend_from_slice(&[VERSION, stamp.year, stamp.month, stamp.day])?;
    put_four(out, rows as u32)?;
    put_two(out, header as u16)?;
    put_two(out, size as u16)
}

/// Writes a record, whose mark is an asterisk or a blank.
fn put_record(out: &mut Vec<u8>, bytes: &[u8]) -> Result<(), AllocError>
    requires { 0 < length bytes.now }
    ensures { OnOk result (out.new.items ≡ out.old.items ++ mark_byte_of (slice_index bytes.now 0 == 42)
        ∷ drop 1 bytes.now) }
{
    let (_, texts) = bytes.split_at(1);
    out.push(mark_byte(bytes[0] == MARKED))?;
    out.extend_from_slice(texts)
}

/// Writes so many records of this size.
pub(crate) fn put_rows(
    out: &mut Vec<u8>,
    size: usize,
    count: usize,
    records: &[u8],
) -> Result<(), AllocError>
    requires some { 0 < size }
    requires room { count * size ≤ length records.now }
    ensures { OnOk result ((ws : List ℕ) → size_of_fields ws ≡ size
        → out.new.items ≡ out.old.items ++ rows_text (rows_in ws count records.now)) }
{
    let mut rest = records;
    for _ in 0..count {
        let (record, others) = rest.split_at(size);
        put_record(out, record)?;
        rest = others;
    }
    Ok(())
}

/// Writes so many bytes 0.
pub(crate) fn put_zeros(out: &mut Vec<u8>, count: usize) -> Result<(), AllocError>
    ensures { OnOk result (out.new.items ≡ out.old.items ++ replicate count 0) }
{
    for _ in 0..count {
        out.push(0)?;
    }
    Ok(())
}

/// Writes the descriptor of a field, with 0 in each byte that has no meaning.
#[tactic(auto, unfolding(crate::specs::Descriptors::descriptor_text))]
fn put_descriptor(out: &mut Vec<u8>, field: &Field) -> Result<(), AllocError>
    ensures { OnOk result (out.new.items ≡ out.old.items ++ descriptor_text field.now) }
{
    let name = field.name.as_slice();
    out.extend_from_slice(name)?;
    put_zeros(out, MAX_NAME + 1 - name.len())?;
    out.push(field.letter.code())?;
    put_zeros(out, 4)?;
    out.push(field.width)?;
    out.push(field.decimals)?;
    put_zeros(out, 14)
}

/// Writes the descriptors of the fields.
pub(crate) fn put_descriptors(out: &mut Vec<u8>, fields: &[Field]) -> Result<(), AllocError>
    ensures { OnOk result (out.new.items ≡ out.old.items ++ descriptors_text fields.now) }
{
    for field in fields {
        put_descriptor(out, field)?;
    }
    Ok(())
}

/// Writes the byte behind the last descriptor.
pub(crate) fn put_end(out: &mut Vec<u8>) -> Result<(), AllocError>
    ensures { OnOk result (out.new.items ≡ out.old.items ++ 13 ∷ []) }
{
    out.push(END)?;
    Ok(())
}
