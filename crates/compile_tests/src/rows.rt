// The tests: tables with a program, `|`, and what is told of it a row.

use crate::faults::{AREAS, VALUES, WAYS};
use crate::forms::{BLOCKS, EXPRESSIONS, SCREEN, TABLES, VARIABLES};
use crate::layout::{LAYOUTS, judged_row};
use crate::limits::{DEEP, IN_ALL, INSTRUCTIONS, LIMITS};
use crate::listing::{ALL_FAULTS, listed};
use crate::parts::{PARTS, parts_shown};
use crate::procedures::{CALLS, FILES, UNSURE};
use crate::programs::{ON_TABLES, ON_VALUES};
use crate::shown::shown;
use std::alloc::{AllocError, Global};
use std::test::Fail;

/// What is told of a row's program.
#[derive(Clone, Copy)]
enum Told {
    /// Its code, or its first fault.
    Code,
    /// What its code has besides its instructions.
    Parts,
    /// All its faults.
    Faults,
    /// What the judge says of its code beside other commands.
    Layout,
}

fn is_right(alloc: Global, text: &str, wanted: &str, told: Told) -> Result<bool, AllocError> {
    match told {
        Told::Code => {
            let found = shown(alloc, text)?;
            Ok(found.as_str() == wanted || wanted == "accepted" && found.as_str().ends_with("; "))
        }
        Told::Parts => Ok(parts_shown(alloc, text)?.as_str() == wanted),
        Told::Faults => Ok(listed(alloc, text)?.as_str() == wanted),
        Told::Layout => Ok(judged_row(alloc, text)? == wanted),
    }
}

/// The first row of which something else is told.
fn first_wrong<'a>(
    alloc: Global,
    table: &'a str,
    told: Told,
) -> Result<Option<&'a str>, AllocError> {
    for row in table.lines() {
        let (text, wanted) = row.rsplit_once('|').unwrap_or((row, "no row"));
        if !is_right(alloc, text, wanted, told)? {
            return Ok(Some(row));
        }
    }
    Ok(None)
}

#[test]
fn rows_are_told(rt: HostRuntime) -> Result<(), Fail> {
    for (table, told) in [
        (VARIABLES, Told::Code),
        (SCREEN, Told::Code),
        (BLOCKS, Told::Code),
        (TABLES, Told::Code),
        (EXPRESSIONS, Told::Code),
        (VALUES, Told::Code),
        (AREAS, Told::Code),
        (WAYS, Told::Code),
        (CALLS, Told::Code),
        (FILES, Told::Code),
        (UNSURE, Told::Code),
        (ON_VALUES, Told::Code),
        (ON_TABLES, Told::Code),
        (DEEP, Told::Code),
        (PARTS, Told::Parts),
        (ALL_FAULTS, Told::Faults),
        (LAYOUTS, Told::Layout),
    ] {
        assert_eq!(rt; first_wrong(rt.alloc(), table, told)?, None);
    }
    Ok(())
}

#[test]
fn limits(rt: HostRuntime) -> Result<(), Fail> {
    assert_eq!(rt; first_wrong(rt.alloc(), LIMITS, Told::Code)?, None);
    Ok(())
}

#[test]
fn too_many_instructions(rt: HostRuntime) -> Result<(), Fail> {
    assert_eq!(rt; first_wrong(rt.alloc(), INSTRUCTIONS, Told::Code)?, None);
    Ok(())
}

#[test]
fn too_many_instructions_in_all(rt: HostRuntime) -> Result<(), Fail> {
    assert_eq!(rt; first_wrong(rt.alloc(), IN_ALL, Told::Code)?, None);
    Ok(())
}
