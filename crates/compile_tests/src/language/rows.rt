//! Tables of examples: an example, `|`, and what is told of it a row.

use crate::language::expressions::{self, CALLS, LINES_OF_WORDS, SAMES, TREES};
use crate::language::lines::{self, LINES};
use crate::language::programs::{self, BLOCKS, COMMANDS, PROGRAMS, SEVERAL_FAULTS};
use crate::language::texts::bytes_of;
use std::alloc::{AllocError, Global};
use std::test::Fail;

/// What is told of an example.
#[derive(Clone, Copy)]
enum Told {
    /// How its tree or its fault begins.
    Tree,
    /// Nothing: another spelling of the tree stands there.
    Same,
    /// Whether it is an expression.
    Expression,
    Words,
    Line,
    /// The file's only command, or its fault.
    Command,
    /// All faults of a file.
    Faults,
    /// Whether it is a file.
    File,
    Program,
}

fn told_of(alloc: Global, example: &str, told: Told) -> Result<String, AllocError> {
    let bytes = bytes_of(alloc, example)?;
    match told {
        Told::Tree | Told::Same => expressions::shown(alloc, &bytes),
        Told::Expression => expressions::verdict(alloc, &bytes),
        Told::Words => expressions::words_shown(alloc, &bytes),
        Told::Line => lines::shown(alloc, &bytes),
        Told::Command => programs::shown(alloc, &bytes),
        Told::Faults => programs::listed(alloc, &bytes),
        Told::File => programs::verdict(alloc, &bytes),
        Told::Program => programs::places(alloc, &bytes),
    }
}

fn is_right(alloc: Global, row: &str, told: Told) -> Result<bool, AllocError> {
    let (example, wanted) = row.split_once('|').unwrap_or((row, "no row"));
    let found = told_of(alloc, example, told)?;
    match told {
        Told::Tree => Ok(found.as_str().starts_with(wanted)),
        Told::Same => Ok(found.as_str() == told_of(alloc, wanted, told)?.as_str()),
        Told::Expression if wanted == "refused" => Ok(found.as_str() != "fine"),
        _ => Ok(found.as_str() == wanted),
    }
}

/// The first row of which something else is told.
fn first_wrong<'a>(
    alloc: Global,
    table: &'a str,
    told: Told,
) -> Result<Option<&'a str>, AllocError> {
    for row in table.lines() {
        if !is_right(alloc, row, told)? {
            return Ok(Some(row));
        }
    }
    Ok(None)
}

#[test]
fn rows_are_told(rt: HostRuntime) -> Result<(), Fail> {
    for (table, told) in [
        (TREES, Told::Tree),
        (CALLS, Told::Tree),
        (expressions::FAULTS, Told::Tree),
        (SAMES, Told::Same),
        (expressions::LENGTHS, Told::Expression),
        (LINES_OF_WORDS, Told::Words),
        (LINES, Told::Line),
        (COMMANDS, Told::Command),
        (BLOCKS, Told::Command),
        (programs::FAULTS, Told::Command),
        (SEVERAL_FAULTS, Told::Faults),
        (programs::LENGTHS, Told::File),
        (PROGRAMS, Told::Program),
    ] {
        assert_eq!(rt; first_wrong(rt.alloc(), table, told)?, None);
    }
    Ok(())
}
