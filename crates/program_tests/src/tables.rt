// Files of tables and indexes that parts of cases describe, on their way to a run.
#![tactic(auto)]

use super::parts::{RunCase, number_at};
use file_access::{Files, MemoryFiles};
use std::alloc::{AllocError, Global};

/// So many zero bytes.
pub fn put_zeros(out: &mut Vec<u8>, count: usize) -> Result<(), AllocError> {
    for _ in 0..count {
        out.push(0)?;
    }
    Ok(())
}

/// The numbers of a text, each in so many bytes, the low ones first.
pub fn put_numbers(out: &mut Vec<u8>, text: &str, widths: &[usize]) -> Result<(), AllocError> {
    for (place, width) in widths.iter().enumerate() {
        let bytes = number_at(text, place).to_le_bytes();
        out.extend_from_slice(bytes.get(..*width).unwrap_or(b""))?;
    }
    Ok(())
}

/// So much as a number of two bytes.
pub fn put_two(out: &mut Vec<u8>, number: usize) -> Result<(), AllocError> {
    out.extend_from_slice(&((number & 0xffff) as u16).to_le_bytes())
}

/// The descriptor of a field: its letter, width, decimals and name.
fn put_column(out: &mut Vec<u8>, column: &str) -> Result<(), AllocError> {
    let (name, letter) = column.split_once(' ').unwrap_or((column, ""));
    out.extend_from_slice(name.as_bytes())?;
    put_zeros(out, 11usize.saturating_sub(name.len()))?;
    out.extend_from_slice(letter.get(..1).unwrap_or("").as_bytes())?;
    put_zeros(out, 4)?;
    put_numbers(out, letter.get(1..).unwrap_or(""), &[1, 1])?;
    put_zeros(out, 14)
}

/// The bytes of a record.
fn width_of(columns: &str) -> usize {
    let mut width = 1usize;
    for column in columns.split(',') {
        width = width.saturating_add((number_at(column, 2) & 0xff) as usize);
    }
    width
}

fn put_columns(out: &mut Vec<u8>, columns: &str, records: usize) -> Result<(), AllocError> {
    out.extend_from_slice(&[3, 84, 12, 31])?;
    put_two(out, records)?;
    put_two(out, 0)?;
    let count = columns.split(',').count();
    put_two(out, count.saturating_mul(32).saturating_add(33))?;
    put_two(out, width_of(columns))?;
    put_zeros(out, 20)?;
    for column in columns.split(',') {
        put_column(out, column)?;
    }
    out.push(13)?;
    Ok(())
}

/// The file of a table with these fields and records, each with its mark in front and `|` behind, stamped with the last
/// day of 1984.
pub fn table(alloc: Global, columns: &str, records: &str) -> Result<Vec<u8>, AllocError> {
    let mut out = Vec::new(alloc);
    let count = records.split('|').count();
    put_columns(&mut out, columns, count.saturating_sub(1))?;
    for record in records.split('|') {
        out.extend_from_slice(record.trim_start_matches('\n').as_bytes())?;
    }
    out.push(26)?;
    Ok(out)
}

/// Bytes of two hexadecimal digits each, up to so many, with zeros behind.
fn put_bytes(out: &mut Vec<u8>, digits: &str, size: usize) -> Result<(), AllocError> {
    for word in digits.split_whitespace() {
        out.push(u8::from_str_radix(word, 16).unwrap_or(0))?;
    }
    let length = out.len();
    put_zeros(out, size.saturating_sub(length))
}

/// The file of an index of key length 1 with the expression `K`, whose root is page 1 of these bytes.
fn index(alloc: Global, page: &str) -> Result<Vec<u8>, AllocError> {
    let mut out = Vec::new(alloc);
    put_bytes(
        &mut out,
        "1 0 0 0 2 0 0 0 0 0 0 0 1 0 2a 0 0 0 c 0 0 0 0 0 4b",
        512,
    )?;
    put_bytes(&mut out, page, 1024)?;
    Ok(out)
}

/// Puts a file among the others; whether that was done.
pub fn put_file(alloc: Global, files: &mut MemoryFiles<'_>, name: &str, bytes: &[u8]) -> bool {
    match Vec::from_slice(alloc, bytes) {
        Ok(bytes) => files.replace(name, bytes).is_ok(),
        Err(_) => false,
    }
}

/// The file that a part describes by a word, a name and more; nothing where it describes none.
fn made(alloc: Global, word: &str, columns: &str, behind: &str) -> Result<Vec<u8>, AllocError> {
    if word == "table" {
        return table(alloc, columns, behind);
    }
    if word == "index" {
        return index(alloc, behind);
    }
    if word == "file" {
        return Vec::from_slice(alloc, behind.as_bytes());
    }
    let mut out = Vec::new(alloc);
    if word == "bytes" {
        put_bytes(&mut out, behind, 0)?;
    }
    Ok(out)
}

/// Makes the file that a part describes, if it does; whether nothing failed.
fn lay_part(alloc: Global, files: &mut MemoryFiles<'_>, part: &str) -> bool {
    let (line, behind) = part.split_once('\n').unwrap_or((part, ""));
    let (word, told) = line.split_once(' ').unwrap_or((line, ""));
    let (name, columns) = told.split_once(' ').unwrap_or((told, ""));
    match made(alloc, word, columns, behind) {
        Ok(bytes) => bytes.is_empty() || put_file(alloc, files, name, &bytes),
        Err(_) => false,
    }
}

/// Makes the tables and indexes that a text describes; whether that was done.
fn lay_parts(alloc: Global, files: &mut MemoryFiles<'_>, text: &str) -> bool {
    for part in text.split('%') {
        if !lay_part(alloc, files, part) {
            return false;
        }
    }
    true
}

/// The name and the bytes of the file of a table of this number.
fn numbered(alloc: Global, number: u64) -> Result<(String, Vec<u8>), AllocError> {
    let name = format!(in alloc; "T{number}.DBF")?;
    Ok((name, table(alloc, "K C 1 0", "")?))
}

/// Makes so many tables; whether that was done.
fn lay_numbered(alloc: Global, files: &mut MemoryFiles<'_>, count: u64) -> bool {
    for number in 0..count {
        let Ok((name, bytes)) = numbered(alloc, number) else {
            return false;
        };
        if !put_file(alloc, files, name.as_str(), &bytes) {
            return false;
        }
    }
    true
}

/// Makes the tables, indexes and other files of a case; whether that was done.
pub fn lay(alloc: Global, files: &mut MemoryFiles<'_>, case: RunCase<'_>) -> bool {
    lay_numbered(alloc, files, case.number("tables ", 0))
        && lay_parts(alloc, files, case.common)
        && lay_parts(alloc, files, case.own)
}
