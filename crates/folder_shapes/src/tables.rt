//! Tables declared.

ghost use Rattle.std.specs.Prelude.{◌<◌, length, IfOk, IfErr, MatchOption};
ghost use Rattle.folder_shapes.specs.Names.{stem as stem_of};
ghost use Rattle.folder_shapes.specs.Reading.{UnfitIs};
ghost use Rattle.folder_shapes.specs.States.{taken_state};
ghost use Rattle.folder_shapes.specs.Told.{DeclaresFound, MayDeclare, MayNotDeclare};

use crate::declared::FolderDeclared;
use crate::found::FoundTable;
use crate::names::{capitals, has_small, stem};
use crate::note::Note;
use crate::unfit::Unfit;
use shape::{Items, TableShape};
use shape_files::capital_fields;
use std::alloc::{AllocError, Global};

/// The most tables that are declared.
const MOST_TABLES: usize = 32;

/// The declaration of a table in a file of that name, if the name isn't too long.
fn declaration(
    alloc: Global,
    name: &[u8],
    found: &FoundTable,
) -> Result<Option<TableShape>, AllocError>
    ensures { IfOk result (λ shape.
        MatchOption shape (10 < length (stem_of name.now)) (DeclaresFound name.now found.now)) }
{
    let Some(name) = capitals(stem(name)) else {
        return Ok(None);
    };
    let fields = capital_fields(alloc, found.table.structure().fields())?;
    Ok(Some(TableShape {
        name,
        fields: Items::of(fields),
    }))
}

/// The declaration of a table in a file of that name behind what is declared.
pub fn table_shape(
    alloc: Global,
    declared: &FolderDeclared,
    name: &[u8],
    found: &FoundTable,
) -> Result<TableShape, Unfit>
    ensures shape { IfOk result (MayDeclare (taken_state declared.now) name.now found.now) }
    ensures unfit { IfErr result (UnfitIs (MayNotDeclare (taken_state declared.now) name.now found.now)) }
{
    let Some(table) = declaration(alloc, name, found)? else {
        return Err(Unfit::Noted(Note::NoName));
    };
    if !table.is_table() {
        return Err(Unfit::Noted(Note::NoName));
    }
    if has_small(name) {
        return Err(Unfit::Noted(Note::SmallLetters));
    }
    if MOST_TABLES <= declared.found.len() {
        return Err(Unfit::Noted(Note::TooMany));
    }
    if !table.is_next(declared.tables.as_slice()) {
        return Err(Unfit::Noted(Note::TooMany));
    }
    Ok(table)
}
