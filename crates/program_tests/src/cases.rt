// Command files compiled and run, from files to files.
#![tactic(auto)]

use super::changed_files::originals::{INDEX, bytes_of};
use super::parts::{RunCase, is_text};
use super::stored::{came_to, run_case};
use super::tables::{lay, put_file, table};
use compile_commands::{CompileFilesRefusal, CompileTold, CompileWords, compile_files};
use file_access::{MemoryFiles, WORKS_FOR_EVER};
use file_commands::{list_index, list_table};
use std::alloc::{AllocError, Global};

/// The names of the declaration file, the command file, and the code that is made of them.
pub const DECLARATIONS: &str = "MAIN.DCL";

pub const SOURCE: &str = "MAIN.PRG";

pub const CODE: &str = "MAIN.XBC";

/// The declarations of a case, with as many tables and then indexes of CUST behind them as it says.
fn declarations(alloc: Global, case: RunCase<'_>) -> Result<Vec<u8>, AllocError> {
    let mut lines = Vec::from_slice(alloc, case.says("declarations\n").as_bytes())?;
    for number in 0..case.number("tables ", 0) {
        let line = format!(in alloc; "TABLE T{number}\n")?;
        lines.extend_from_slice(line.as_str().as_bytes())?;
    }
    for number in 0..case.number("indexes ", 0) {
        let line = format!(in alloc; "INDEX I{number} ON CUST KEY NAME\n")?;
        lines.extend_from_slice(line.as_str().as_bytes())?;
    }
    Ok(lines)
}

/// Makes the declaration file of a case, unless there is none; whether that was done.
fn is_declared(alloc: Global, files: &mut MemoryFiles<'_>, case: RunCase<'_>) -> bool {
    match declarations(alloc, case) {
        Ok(lines) => case.has("absent") || put_file(alloc, files, DECLARATIONS, &lines),
        Err(_) => false,
    }
}

/// Makes the files of a case; whether that was done.
pub fn laid(alloc: Global, files: &mut MemoryFiles<'_>, case: RunCase<'_>) -> bool {
    is_declared(alloc, files, case)
        && put_file(alloc, files, SOURCE, case.says("source\n").as_bytes())
        && lay(alloc, files, case)
}

/// The names of the command files of a case, the main one first.
pub fn names_of<'a>(alloc: Global, case: RunCase<'a>) -> Result<Vec<&'a str>, AllocError> {
    let mut names = Vec::new(alloc);
    names.push(SOURCE)?;
    for name in case.line("files ").split_whitespace() {
        names.push(name)?;
    }
    Ok(names)
}

/// How a refusal of command files of these names is told.
pub fn refusal_told(
    alloc: Global,
    refusal: &CompileFilesRefusal,
    names: &[&str],
) -> Result<String, AllocError> {
    let words = CompileWords {
        decl: DECLARATIONS,
        out: CODE,
        names,
    };
    CompileTold { refusal, words }.to_string(alloc)
}

/// How the refusal of the command files of these names is told; nothing where they are compiled.
fn told_of_files(
    alloc: Global,
    files: &mut MemoryFiles<'_>,
    names: &[&str],
) -> Result<String, AllocError> {
    if names.is_empty() {
        return String::from_str(alloc, "no file");
    }
    match compile_files(alloc, files, DECLARATIONS, CODE, names) {
        Ok(()) => Ok(String::new(alloc)),
        Err(refusal) => refusal_told(alloc, &refusal, names),
    }
}

/// How the refusal of the command files of a case is told; nothing where they are compiled.
fn told_of_compiling(
    alloc: Global,
    files: &mut MemoryFiles<'_>,
    case: RunCase<'_>,
) -> Result<String, AllocError> {
    let names = names_of(alloc, case)?;
    told_of_files(alloc, files, &names)
}

/// Whether the compiler says just this of a case.
pub fn says_of_compiling(
    alloc: Global,
    files: &mut MemoryFiles<'_>,
    case: RunCase<'_>,
    words: &str,
) -> bool {
    is_text(told_of_compiling(alloc, files, case), words)
}

/// Makes the files of a case and compiles it; whether that was done.
pub fn compiled(alloc: Global, files: &mut MemoryFiles<'_>, case: RunCase<'_>) -> bool {
    laid(alloc, files, case) && says_of_compiling(alloc, files, case, "")
}

/// The file of the code of a case, if it has one.
pub fn code_of(alloc: Global, case: RunCase<'_>) -> Option<Vec<u8>> {
    let mut files = MemoryFiles::new(alloc, &[], WORKS_FOR_EVER);
    if !compiled(alloc, &mut files, case) {
        return None;
    }
    Vec::from_slice(alloc, files.bytes_of(CODE)?).ok()
}

fn runs_so(alloc: Global, files: &mut MemoryFiles<'_>, case: RunCase<'_>, checked: bool) -> bool {
    let budget = case.number("budget ", 1_000_000);
    match run_case(alloc, files, CODE, case, checked, budget) {
        Some(report) => came_to(
            alloc,
            &report,
            CODE,
            case.says("rows\n"),
            case.line("ended "),
        ),
        None => false,
    }
}

/// Whether a table or an index is listed so; why it isn't stands for a list that there isn't.
fn is_listed(
    alloc: Global,
    files: &mut MemoryFiles<'_>,
    name: &str,
    is_table: bool,
    lines: &str,
) -> bool {
    let listed = if is_table {
        list_table(alloc, files, name)
    } else {
        list_index(alloc, files, name)
    };
    match listed {
        Ok(bytes) => bytes.as_slice() == lines.as_bytes(),
        Err(refusal) => is_text(refusal.to_string(alloc), lines.trim_end()),
    }
}

/// Whether the list that a part says, if it does, is that of its file.
fn is_list(alloc: Global, files: &mut MemoryFiles<'_>, part: &str) -> bool {
    let (line, lines) = part.split_once('\n').unwrap_or((part, ""));
    if let Some(name) = line.strip_prefix("list ") {
        return is_listed(alloc, files, name, true, lines);
    }
    match line.strip_prefix("keys ") {
        Some(name) => is_listed(alloc, files, name, false, lines),
        None => true,
    }
}

/// Whether each table and index is listed as a case says.
pub fn are_lists(alloc: Global, files: &mut MemoryFiles<'_>, case: RunCase<'_>) -> bool {
    for part in case.own.split('%') {
        if !is_list(alloc, files, part) {
            return false;
        }
    }
    true
}

/// Whether the index of which a case says so, if it does, is saved as the one that other tests change byte by byte.
fn is_original(alloc: Global, files: &MemoryFiles<'_>, case: RunCase<'_>) -> bool {
    let name = case.line("original ");
    if name.is_empty() {
        return true;
    }
    match (files.bytes_of(name), bytes_of(alloc, INDEX)) {
        (Some(bytes), Ok(wanted)) => bytes == wanted.as_slice(),
        _ => false,
    }
}

/// The table of these fields and records with the first day of 1985 as its stamp.
fn stamped(alloc: Global, columns: &str, records: &str) -> Result<Vec<u8>, AllocError> {
    let mut bytes = table(alloc, columns, records)?;
    if bytes.len() > 4 {
        bytes[1..4].copy_from_slice(&[85, 1, 1]);
    }
    Ok(bytes)
}

/// Whether a table is saved as a case says, if it does, byte by byte.
fn is_saved(alloc: Global, files: &MemoryFiles<'_>, case: RunCase<'_>) -> bool {
    let (line, records) = case.says("saved ").split_once('\n').unwrap_or(("", ""));
    let (name, columns) = line.split_once(' ').unwrap_or(("", ""));
    if name.is_empty() {
        return true;
    }
    match (files.bytes_of(name), stamped(alloc, columns, records)) {
        (Some(bytes), Ok(wanted)) => bytes == wanted.as_slice() && has_length(bytes, case),
        _ => false,
    }
}

/// Whether a file is as long as a case says, if it says so.
pub fn has_length(bytes: &[u8], case: RunCase<'_>) -> bool {
    let length = bytes.len() as u64;
    length == case.number("length ", length)
}

/// Whether a case comes to what it says, run by the checking machine and then by the one without tags.
pub fn runs_well(alloc: Global, case: RunCase<'_>) -> bool {
    let mut files = MemoryFiles::new(alloc, &[], WORKS_FOR_EVER);
    if !laid(alloc, &mut files, case)
        || !says_of_compiling(alloc, &mut files, case, case.line("refused "))
    {
        return false;
    }
    case.has("refused ")
        || runs_so(alloc, &mut files, case, true)
            && runs_so(alloc, &mut files, case, false)
            && are_lists(alloc, &mut files, case)
            && is_saved(alloc, &files, case)
            && is_original(alloc, &files, case)
}
