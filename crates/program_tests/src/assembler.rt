// Code files that cases describe.
#![tactic(auto)]

use super::parts::{RunCase, number_at};
use super::tables::{put_numbers, put_two, put_zeros};
use std::alloc::{AllocError, Global};

/// A table T of one field of texts K, one byte wide, as it stands in the code's file.
const TABLE: &[u8] = b"\x01T\x01\x01KC\x01\x00";

/// How many items the part of this word has, with this byte behind each.
fn count(case: RunCase<'_>, word: &str, behind: char) -> usize {
    case.says(word).split(behind).count().saturating_sub(1)
}

fn put_header(out: &mut Vec<u8>, case: RunCase<'_>) -> Result<(), AllocError> {
    out.extend_from_slice(b"XBCF\x01\x00")?;
    for number in [
        case.number("stack ", 0) as usize,
        case.number("slots ", 0) as usize,
        usize::from(case.has("over T")),
        0,
        0,
        count(case, "constants ", '|'),
        count(case, "filters ", ','),
        count(case, "procedures ", ',').max(1),
        count(case, "maps ", ','),
        count(case, "code ", ';'),
    ] {
        put_two(out, number)?;
    }
    Ok(())
}

/// A constant: its kind's letter, and the number, the text or 1 for true.
fn put_constant(out: &mut Vec<u8>, constant: &str) -> Result<(), AllocError> {
    let (kind, said) = constant.split_once(' ').unwrap_or(("", ""));
    if kind == "T" {
        out.extend_from_slice(&[2, (said.len() & 0xff) as u8])?;
        return out.extend_from_slice(said.as_bytes());
    }
    if kind == "L" {
        out.push(4)?;
        return put_numbers(out, said, &[1]);
    }
    if kind == "N" {
        out.extend_from_slice(&[1, 0, 0])?;
        return put_numbers(out, said, &[8]);
    }
    Ok(())
}

/// A state in which work area 1 is selected, all are closed and the stack is empty, with these slots.
fn put_state(out: &mut Vec<u8>, slots: &str, count: usize) -> Result<(), AllocError> {
    out.push(1)?;
    put_zeros(out, 10)?;
    for place in 0..count {
        out.push((number_at(slots, place) & 0xff) as u8)?;
    }
    out.push(0)?;
    Ok(())
}

/// The procedures: how many instructions each has, and its level of calls. Where none is said, the instructions are one
/// procedure's, of level 0.
fn put_procedures(out: &mut Vec<u8>, case: RunCase<'_>, slots: usize) -> Result<(), AllocError> {
    if !case.has("procedures ") {
        put_two(out, count(case, "code ", ';'))?;
        out.push(0)?;
        put_state(out, "", slots)?;
        return put_state(out, "", slots);
    }
    for procedure in case.line("procedures ").split_terminator(',') {
        put_numbers(out, procedure, &[2, 1])?;
        put_state(out, "", slots)?;
        put_state(out, "", slots)?;
    }
    Ok(())
}

/// The maps: the place of each, and its slots.
fn put_maps(out: &mut Vec<u8>, case: RunCase<'_>, slots: usize) -> Result<(), AllocError> {
    for map in case.line("maps ").split_terminator(',') {
        let (place, kinds) = map.split_once(':').unwrap_or((map, ""));
        put_numbers(out, place, &[2])?;
        put_state(out, kinds, slots)?;
    }
    Ok(())
}

/// The filters: the table of each, how many instructions it has, and that it needs no slot.
fn put_filters(out: &mut Vec<u8>, case: RunCase<'_>) -> Result<(), AllocError> {
    for filter in case.line("filters ").split_terminator(',') {
        put_numbers(out, filter, &[1, 2, 2])?;
    }
    Ok(())
}

/// The constants, and the table before them.
fn put_constants(out: &mut Vec<u8>, case: RunCase<'_>) -> Result<(), AllocError> {
    if case.has("over T") {
        out.extend_from_slice(TABLE)?;
    }
    for constant in case.says("constants ").split('|') {
        put_constant(out, constant)?;
    }
    Ok(())
}

/// Puts other bytes at places that a case says, and takes as many off the end as it says.
fn change(bytes: &mut Vec<u8>, case: RunCase<'_>) {
    for place in case.line("set ").split_terminator(',') {
        if let Some(byte) = bytes.get_mut(number_at(place, 0) as usize) {
            *byte = (number_at(place, 1) & 0xff) as u8;
        }
    }
    let length = bytes.len();
    bytes.truncate(length.saturating_sub(case.number("cut ", 0) as usize));
}

/// The file of a case's code. Each instruction is an operation and its operands.
pub fn assembled(alloc: Global, case: RunCase<'_>) -> Result<Vec<u8>, AllocError> {
    let mut out = Vec::new(alloc);
    let slots = case.number("slots ", 0) as usize;
    put_header(&mut out, case)?;
    put_constants(&mut out, case)?;
    put_filters(&mut out, case)?;
    put_procedures(&mut out, case, slots)?;
    put_maps(&mut out, case, slots)?;
    for instruction in case.says("code ").trim_end().split_terminator(';') {
        put_numbers(&mut out, instruction, &[1, 1, 2, 4])?;
    }
    change(&mut out, case);
    Ok(out)
}
