// All faults of declaration files and command files, and what lines without a fault declare. `faults` lists the faults,
// and `shape` tables with their fields and indexes with the numbers of their tables.
#![tactic(auto)]

use super::cases::{DECLARATIONS, laid, names_of, refusal_told};
use super::parts::{RunCase, are_bytes, is_text};
use compile_commands::{FoundFaults, faults_of};
use file_access::{MemoryFiles, WORKS_FOR_EVER};
use shape::{IndexShape, TableShape};
use shape_files::{ShapeRefusal, list_shape};
use std::alloc::{AllocError, Global};

pub const ALL_FAULTS: &str = r#"
%table CUST.DBF NAME C 10 0,AMT N 5 2

#faults of lines of three files
%declarations
TABEL CUST
TABLE CUST
TABLE cust
INDEX CI ON CUST KEY AMT
INDEX CI ON CUST KEY NAME
INDEX CI ON CUST KEY NAME
TABLE GONE
%files two.prg
%file two.prg
? "AB
? 1
? &X
%source
IF .T.
X = = 3
? Y
? 12345678901234567890
LOCATE FOR X
%faults
MAIN.DCL line 1 Word
MAIN.DCL line 3 Name
MAIN.DCL line 4 Key
MAIN.DCL line 6 Name
MAIN.DCL line 7 Table
MAIN.PRG line 2 Expression
MAIN.PRG line 4 Number
MAIN.PRG line 5 Word
MAIN.PRG line 1 Block
two.prg line 1 Text
two.prg line 3 Macro
%shape
CUST NAME C 10 0 AMT N 5 2
CI 0
#a fault of a line hides those of the compiler
%source
? Y
%declarations
TABLE GONE
%faults
MAIN.DCL line 1 Table
%shape
#faults of commands of two files
%declarations
TABLE CUST
INDEX CI ON CUST KEY UPPER(NAME)
%files two.prg
%file two.prg
? 1 + "A"
? 1
SKIP
%source
DO TWO
? Y
USE GONE
%faults
two.prg line 1 Kind
two.prg line 3 ClosedArea
MAIN.PRG line 2 Name
MAIN.PRG line 3 Name
%shape
CUST NAME C 10 0 AMT N 5 2
CI 0
#no fault
%declarations
TABLE CUST
%files two.prg
%file two.prg
USE CUST
? AMT
%source
DO TWO
%faults
%shape
CUST NAME C 10 0 AMT N 5 2
#the second file isn't there, and the third one is faulty
%files two.prg three.prg
%file three.prg
X = = 3
%faults
two.prg Absent
three.prg line 1 Expression
%shape
#no declaration file
%absent
%faults
refused MAIN.DCL Absent
%shape
Absent
"#;

/// The faults that were found, a line each.
fn listed(alloc: Global, found: &FoundFaults, names: &[&str]) -> Result<String, AllocError> {
    let mut lines = String::new(alloc);
    for fault in &found.declarations {
        let line = format!(in alloc; "{DECLARATIONS} {fault}\n")?;
        lines.push_str(line.as_str())?;
    }
    for own in &found.commands {
        let name = names.get(own.file).copied().unwrap_or("");
        let fault = own.fault;
        let line = format!(in alloc; "{name} {fault}\n")?;
        lines.push_str(line.as_str())?;
    }
    Ok(lines)
}

/// All faults of the command files of these names and of their declaration file, or why they aren't listed.
fn faults(
    alloc: Global,
    files: &mut MemoryFiles<'_>,
    names: &[&str],
) -> Result<String, AllocError> {
    if names.is_empty() {
        return String::from_str(alloc, "no file");
    }
    match faults_of(alloc, files, DECLARATIONS, names) {
        Ok(found) => listed(alloc, &found, names),
        Err(refusal) => {
            let mut line = refusal_told(alloc, &refusal, names)?;
            line.push('\n')?;
            Ok(line)
        }
    }
}

/// Puts a table with its fields, in a line.
fn put_table(lines: &mut Vec<u8>, alloc: Global, table: &TableShape) -> Result<(), AllocError> {
    lines.extend_from_slice(table.name.as_slice())?;
    for field in table.fields.as_slice() {
        let (letter, width, decimals) = (field.letter, field.width, field.decimals);
        let text = format!(in alloc; " {letter:?} {width} {decimals}")?;
        lines.push(b' ')?;
        lines.extend_from_slice(field.name.as_slice())?;
        lines.extend_from_slice(text.as_str().as_bytes())?;
    }
    lines.push(b'\n')?;
    Ok(())
}

/// Puts an index with its table's number, in a line.
fn put_index(lines: &mut Vec<u8>, alloc: Global, index: &IndexShape) -> Result<(), AllocError> {
    let table = index.table;
    let text = format!(in alloc; " {table}\n")?;
    lines.extend_from_slice(index.name.as_slice())?;
    lines.extend_from_slice(text.as_str().as_bytes())
}

/// What the lines without a fault declare, or why nothing is listed.
fn shape(alloc: Global, files: &mut MemoryFiles<'_>) -> Result<Vec<u8>, AllocError> {
    let mut lines = Vec::new(alloc);
    match list_shape(alloc, files, DECLARATIONS) {
        Ok(listed) => {
            for table in listed.shape.tables.as_slice() {
                put_table(&mut lines, alloc, table)?;
            }
            for index in listed.shape.indexes.as_slice() {
                put_index(&mut lines, alloc, index)?;
            }
        }
        Err(ShapeRefusal::Refused(fault)) => {
            let text = format!(in alloc; "{fault}\n")?;
            lines.extend_from_slice(text.as_str().as_bytes())?;
        }
        Err(_) => lines.extend_from_slice(b"disk or memory\n")?,
    }
    Ok(lines)
}

/// All faults of the files of a case, or why they aren't listed.
fn faults_in(
    alloc: Global,
    files: &mut MemoryFiles<'_>,
    case: RunCase<'_>,
) -> Result<String, AllocError> {
    let names = names_of(alloc, case)?;
    faults(alloc, files, &names)
}

/// Whether the faults of the files of a case are listed as it says, and what is declared there too.
pub fn lists_faults(alloc: Global, case: RunCase<'_>) -> bool {
    let mut files = MemoryFiles::new(alloc, &[], WORKS_FOR_EVER);
    laid(alloc, &mut files, case)
        && is_text(faults_in(alloc, &mut files, case), case.says("faults\n"))
        && are_bytes(shape(alloc, &mut files), case.says("shape\n").as_bytes())
}
