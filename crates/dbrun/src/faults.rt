//! All faults of a declaration file and of command files, listed.

use crate::escaped::Escaped;
use crate::shown::{Audience, PrintableLine, declared_line, line_among, line_of, lines_of};
use crate::{folder, no_memory, settle, status_of, tell_uncompiled};
use command_words::WordsFault;
use compile_commands::{CompileWords, FileFault, FoundFaults, faults_of};
use file_access::{FILE_LIMIT, Files};
use file_commands::Status;
use folder_files::{Folder, Nobody};
use shape_files::DeclFault;
use std::alloc::Global;
use std::fmt::Display;
use std::fs::File;
use std::rt::Runtime;

/// The bytes of a file that was read before, none where they can't be read again.
fn read_again<R: Runtime<A = Global, File = File>>(rt: &R, name: &str) -> Vec<u8> {
    let mut folder = Folder::new(rt, Nobody);
    folder
        .read(rt.alloc(), name, FILE_LIMIT)
        .unwrap_or(Vec::new(rt.alloc()))
}

/// Prints a fault of a file of this name, with the line of that number where there is one.
fn print_fault<R: Runtime<A = Global, File = File>, D: Display>(
    rt: &R,
    audience: Audience,
    name: &str,
    lines: &[PrintableLine<'_>],
    line: usize,
    fault: &D,
) -> Status {
    let name = Escaped {
        what: &name,
        at_terminal: audience.rows,
    };
    let printed = match line_among(lines, line) {
        Some(line) => println!(rt; "{name} {fault}  {line}"),
        None => println!(rt; "{name} {fault}"),
    };
    status_of(rt, printed)
}

/// Prints the faults of the declaration file of this name, each with its line where that can still be read.
fn print_declared<R: Runtime<A = Global, File = File>>(
    rt: &R,
    audience: Audience,
    name: &str,
    faults: &[DeclFault],
) -> Status {
    let bytes = read_again(rt, name);
    let Ok(lines) = lines_of(rt.alloc(), bytes.as_slice()) else {
        return no_memory(rt);
    };
    for fault in faults {
        match print_fault(rt, audience, name, &lines, declared_line(*fault), fault) {
            Status::Done => {}
            status => return status,
        }
    }
    Status::Done
}

/// Prints the faults of the command file of this name and number, each with its line where that can still be read.
fn print_faults<R: Runtime<A = Global, File = File>>(
    rt: &R,
    audience: Audience,
    name: &str,
    number: usize,
    faults: &[FileFault],
) -> Status {
    let bytes = read_again(rt, name);
    let Ok(lines) = lines_of(rt.alloc(), bytes.as_slice()) else {
        return no_memory(rt);
    };
    for FileFault { file, fault } in faults {
        if *file != number {
            continue;
        }
        match print_fault(rt, audience, name, &lines, line_of(*fault), fault) {
            Status::Done => {}
            status => return status,
        }
    }
    Status::Done
}

/// Prints the faults of the declaration file and of command files, file by file.
fn print_found<R: Runtime<A = Global, File = File>>(
    rt: &R,
    audience: Audience,
    decl: &str,
    names: &[&str],
    found: &FoundFaults,
) -> Status {
    match print_declared(rt, audience, decl, &found.declarations) {
        Status::Done => {}
        status => return status,
    }
    for (number, name) in names.iter().enumerate() {
        match print_faults(rt, audience, name, number, &found.commands) {
            Status::Done => {}
            status => return status,
        }
    }
    Status::Refused
}

/// Lists the faults of a declaration file and of command files on standard output, file by file.
pub fn faults<'a, R: Runtime<A = Global, File = File>>(
    rt: &R,
    audience: Audience,
    decl: &'a str,
    names: &'a [&'a str],
) -> Result<Status, WordsFault> {
    if names.is_empty() {
        return Err(WordsFault::Missing);
    }
    let _ = settle(rt, audience);
    let mut folder = folder(rt, audience);
    let found = match faults_of(rt.alloc(), &mut folder, decl, names) {
        Ok(found) => found,
        Err(refusal) => {
            let out = "";
            let words = CompileWords { decl, out, names };
            return Ok(tell_uncompiled(rt, audience, &refusal, words, None));
        }
    };
    if found.is_empty() {
        return Ok(Status::Done);
    }
    Ok(print_found(rt, audience, decl, names, &found))
}
