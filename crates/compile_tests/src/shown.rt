// Programs in one line, and how their code is shown. The tables are AA with the fields K (text of 5), P (text of 3), N
// (number of 5 with 2 decimals), D (date) and L (logical); BB, CC and T with one field K (text of 5); CUST and P with
// NAME (text of 10), BILL with AMT (number of 5 with 2 decimals), and CUST2 with CITY (text of 9). The indexes are AK
// on K, AU on UPPER(K) and AP on K+UPPER(P) of AA, BK on K of BB, KI on K of T, and PN on NAME of P.

use arrayvec::ArrayVec;
use code_items::{IndexShape, Items, KeyPart, KeyParts, Name, Shape, TableShape, Version};
use dbf_file::{Field, Letter};
use prg_compile::{CompileRefusal, compile};
use prg_parser::{ParseRefusal, Program, parse};
use std::alloc::{AllocError, Global};
use xcode::list;
use xvalue::Text;
use xverify::Verified;

pub(crate) fn name_of(text: &[u8]) -> Name {
    let mut name = ArrayVec::new();
    let _ = name.try_extend_from_slice(text);
    name
}

fn field(name: &[u8], letter: Letter, width: u8, decimals: u8) -> Field {
    Field {
        name: name_of(name),
        letter,
        width,
        decimals,
    }
}

fn wide_table(alloc: Global) -> Result<TableShape, AllocError> {
    let mut fields = Vec::new(alloc);
    fields.push(field(b"K", Letter::C, 5, 0))?;
    fields.push(field(b"P", Letter::C, 3, 0))?;
    fields.push(field(b"N", Letter::N, 5, 2))?;
    fields.push(field(b"D", Letter::D, 8, 0))?;
    fields.push(field(b"L", Letter::L, 1, 0))?;
    Ok(TableShape {
        name: name_of(b"AA"),
        fields: Items::of(fields),
    })
}

fn table(alloc: Global, name: &[u8], only: Field) -> Result<TableShape, AllocError> {
    let mut fields = Vec::new(alloc);
    fields.push(only)?;
    Ok(TableShape {
        name: name_of(name),
        fields: Items::of(fields),
    })
}

fn put_more_tables(alloc: Global, tables: &mut Vec<TableShape>) -> Result<(), AllocError> {
    tables.push(table(alloc, b"CUST", field(b"NAME", Letter::C, 10, 0))?)?;
    tables.push(table(alloc, b"BILL", field(b"AMT", Letter::N, 5, 2))?)?;
    tables.push(table(alloc, b"P", field(b"NAME", Letter::C, 10, 0))?)?;
    tables.push(table(alloc, b"CUST2", field(b"CITY", Letter::C, 9, 0))?)?;
    Ok(())
}

fn part(field: u8, upper: bool) -> KeyPart {
    KeyPart { field, upper }
}

fn index(name: &[u8], table: u8, parts: &[KeyPart]) -> IndexShape {
    let few = if parts.len() <= 8 { parts } else { &[] };
    IndexShape {
        name: name_of(name),
        table,
        key: KeyParts::new(few),
    }
}

pub(crate) fn shape(alloc: Global) -> Result<Shape, AllocError> {
    let mut tables = Vec::new(alloc);
    tables.push(wide_table(alloc)?)?;
    tables.push(table(alloc, b"BB", field(b"K", Letter::C, 5, 0))?)?;
    tables.push(table(alloc, b"CC", field(b"K", Letter::C, 5, 0))?)?;
    tables.push(table(alloc, b"T", field(b"K", Letter::C, 5, 0))?)?;
    put_more_tables(alloc, &mut tables)?;
    let mut indexes = Vec::new(alloc);
    indexes.push(index(b"AK", 0, &[part(0, false)]))?;
    indexes.push(index(b"AU", 0, &[part(0, true)]))?;
    indexes.push(index(b"AP", 0, &[part(0, false), part(1, true)]))?;
    indexes.push(index(b"BK", 1, &[part(0, false)]))?;
    indexes.push(index(b"KI", 3, &[part(0, false)]))?;
    indexes.push(index(b"PN", 6, &[part(0, false)]))?;
    Ok(Shape {
        tables: Items::of(tables),
        indexes: Items::of(indexes),
    })
}

/// Puts a number, in figures.
fn put_number(lines: &mut Vec<u8>, alloc: Global, number: u32) -> Result<(), AllocError> {
    let figures = format!(in alloc; "{number}")?;
    lines.extend_from_slice(figures.as_str().as_bytes())
}

/// Puts a piece of this number, with line ends for its carets.
fn put_piece(
    lines: &mut Vec<u8>,
    alloc: Global,
    text: &str,
    number: u32,
) -> Result<(), AllocError> {
    for byte in text.as_bytes() {
        match byte {
            b'^' => lines.push(b'\n')?,
            b'#' if number > 0 => put_number(lines, alloc, number)?,
            b'~' if number > 0 => put_number(lines, alloc, number.saturating_add(1))?,
            _ => lines.push(*byte)?,
        }
    }
    Ok(())
}

/// Puts a piece as often as the number in front of it says.
fn put_pieces(lines: &mut Vec<u8>, alloc: Global, text: &str) -> Result<(), AllocError> {
    let (times, piece) = text.split_once(' ').unwrap_or(("0", ""));
    for number in 1..=times.parse().unwrap_or(0u32) {
        put_piece(lines, alloc, piece, number)?;
    }
    Ok(())
}

/// The text with line ends for its carets, and with pieces between backquotes as often as they say.
fn lines_of(alloc: Global, text: &str) -> Result<Vec<u8>, AllocError> {
    let mut lines = Vec::new(alloc);
    for (place, part) in text.split('`').enumerate() {
        if place % 2 == 0 {
            put_piece(&mut lines, alloc, part, 0)?;
        } else {
            put_pieces(&mut lines, alloc, part)?;
        }
    }
    Ok(lines)
}

fn named(program: Program, name: &str) -> Program {
    let mut text = Text::new();
    let _ = text.try_extend_from_slice(name.as_bytes());
    program.named(text)
}

/// The files of a row: the main one, and behind `{NAME}` each further one; or how the fault of one is shown.
pub(crate) fn programs_of(
    alloc: Global,
    row: &str,
) -> Result<Result<Vec<Program>, String>, AllocError> {
    let mut programs = Vec::new(alloc);
    for file in row.split('{') {
        let (name, text) = file.split_once('}').unwrap_or(("MAIN", file));
        let lines = lines_of(alloc, text)?;
        match parse(alloc, &lines) {
            Ok(program) => programs.push(named(program, name))?,
            Err(ParseRefusal::Fault(fault)) => {
                let line = fault.line;
                let kind = fault.kind;
                return Ok(Err(format!(in alloc; "parse {line} {kind:?}")?));
            }
            Err(ParseRefusal::Memory) => return Ok(Err(String::from_str(alloc, "memory")?)),
        }
    }
    Ok(Ok(programs))
}

/// The listing without its places, and with `; ` for the ends of its lines.
fn joined(alloc: Global, listing: &[u8]) -> Result<String, AllocError> {
    let mut text = String::new(alloc);
    let mut column = 0usize;
    for byte in listing {
        if *byte == b'\n' {
            text.push_str("; ")?;
            column = 0;
        } else {
            if column >= 6 {
                text.push(char::from(*byte))?;
            }
            column = column.saturating_add(1);
        }
    }
    Ok(text)
}

fn code_shown(alloc: Global, verified: &Verified) -> Result<String, AllocError> {
    let code = verified.code();
    let lines = list(alloc, code)?;
    let text = joined(alloc, &lines)?;
    match code.declared.version {
        Version::One => Ok(text),
        Version::Two => format!(in alloc; "two; {text}"),
    }
}

fn compiled(alloc: Global, programs: &[Program]) -> Result<String, AllocError> {
    let shape = shape(alloc)?;
    if programs.is_empty() {
        return String::from_str(alloc, "no program");
    }
    match compile(alloc, programs, &shape) {
        Ok(verified) => code_shown(alloc, &verified),
        Err(CompileRefusal::Fault(fault)) => {
            let file = fault.file;
            let line = fault.line;
            let kind = fault.kind;
            format!(in alloc; "{file} {line} {kind:?}")
        }
        Err(CompileRefusal::NoMemory) => String::from_str(alloc, "memory"),
    }
}

/// The code of a row, if it has one.
pub(crate) fn code_of(alloc: Global, row: &str) -> Result<Option<Verified>, AllocError> {
    let Ok(programs) = programs_of(alloc, row)? else {
        return Ok(None);
    };
    if programs.is_empty() {
        return Ok(None);
    }
    match compile(alloc, &programs, &shape(alloc)?) {
        Ok(verified) => Ok(Some(verified)),
        Err(_) => Ok(None),
    }
}

/// How the code of a row is shown, or its fault.
pub(crate) fn shown(alloc: Global, row: &str) -> Result<String, AllocError> {
    match programs_of(alloc, row)? {
        Ok(programs) => compiled(alloc, &programs),
        Err(fault) => Ok(fault),
    }
}
