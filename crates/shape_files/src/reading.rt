//! A declaration file read.

ghost use Rattle.std.specs.Prelude.{◌≡◌, ◌≤◌, true, Some, length, IfErr, IfOk, OnErr, OnOk};
ghost use Rattle.file_access.specs.Holding.{SameFiles};
ghost use Rattle.shape.specs.Whole.{is_shape};
ghost use Rattle.text_lines.specs.Lines.{lines};
ghost use Rattle.shape_files.specs.Lines.{Table as TableSaid, said_in_line};
ghost use Rattle.shape_files.specs.Listing.{IsNoLine};
ghost use Rattle.shape_files.specs.Refusals.{AtLineIs, IndexRefusalIs, LineRefusalIs, LinesRefusalIs, ShapeRefusalIs};
ghost use Rattle.shape_files.specs.Shapes.{Declare, LineDeclares, DeclaresIndex, IsDeclared, no_shape, shape_of};

use crate::declarations::{Declarations, MOST_TABLES};
use crate::key::key_of;
use crate::line::{DeclarationLine, line_of};
use crate::refusal::{DeclFault, LineFault, LineRefusal, ShapeRefusal};
use crate::tables::read_fields;
use file_access::{FILE_LIMIT, Files, ReadFault};
use shape::laws::file_names_are_texts;
use shape::{IndexShape, Items, Shape, TableShape};
use std::alloc::Global;
use text_lines::first_line;

/// `TABLE name`. The faults Name, Limit and Table are tested in this order.
fn declare_table<F: Files>(
    alloc: Global,
    files: &mut F,
    declarations: &mut Declarations,
    word: &[u8],
) -> Result<(), LineRefusal>
    ensures declared { OnOk result (LineDeclares (F.holds files.old) (TableSaid word.now) (shape_of declarations.old)
        (shape_of declarations.new)) }
    ensures legal { is_shape (shape_of declarations.old) ≡ true
        → OnOk result (is_shape (shape_of declarations.new) ≡ true) }
    ensures refused { IfErr result (LineRefusalIs (F.holds files.old) (shape_of declarations.old) (TableSaid word.now)
        (F.failed files.old) (F.failed files.new)) }
    ensures same { OnErr result (shape_of declarations.new ≡ shape_of declarations.old) }
    ensures counted { F.failed files.old ≤ F.failed files.new }
    ensures kept { SameFiles (F.holds files.old) (F.holds files.new) }
{
    let Some(name) = declarations.table_name(word) else {
        return Err(LineRefusal::Fault(LineFault::Name));
    };
    if MOST_TABLES <= declarations.tables.len() {
        return Err(LineRefusal::Fault(LineFault::Limit));
    }
    match read_fields(alloc, files, &name) {
        Ok(fields) => declarations.add_table(TableShape {
            name,
            fields: Items::of(fields),
        }),
        Err(refusal) => {
            file_names_are_texts();
            Err(refusal)
        }
    }
}

/// `INDEX name ON table KEY key`. The faults Name, Key and Limit are tested in this order.
fn declare_index(
    alloc: Global,
    declarations: &mut Declarations,
    word: &[u8],
    of: &[u8],
    text: &[u8],
) -> Result<(), LineRefusal>
    ensures declared { OnOk result (DeclaresIndex word.now of.now text.now (shape_of declarations.old)
        (shape_of declarations.new)) }
    ensures legal { is_shape (shape_of declarations.old) ≡ true
        → OnOk result (is_shape (shape_of declarations.new) ≡ true) }
    ensures refused { IfErr result (IndexRefusalIs (shape_of declarations.old) word.now of.now text.now) }
    ensures same { OnErr result (shape_of declarations.new ≡ shape_of declarations.old) }
{
    let Some(name) = declarations.index_name(word) else {
        return Err(LineRefusal::Fault(LineFault::Name));
    };
    let Some((table, fields)) = declarations.table(of) else {
        return Err(LineRefusal::Fault(LineFault::Name));
    };
    match key_of(alloc, fields, text) {
        Ok(key) => declarations.add_index(IndexShape { name, table, key }),
        Err(refusal) => Err(refusal),
    }
}

/// Takes a line.
pub(crate) fn declare<F: Files>(
    alloc: Global,
    files: &mut F,
    declarations: &mut Declarations,
    text: &[u8],
) -> Result<(), LineRefusal>
    ensures declared { OnOk result (LineDeclares (F.holds files.old) (said_in_line text.now) (shape_of declarations.old)
        (shape_of declarations.new)) }
    ensures legal { is_shape (shape_of declarations.old) ≡ true
        → OnOk result (is_shape (shape_of declarations.new) ≡ true) }
    ensures refused { IfErr result
        (LineRefusalIs (F.holds files.old) (shape_of declarations.old) (said_in_line text.now) (F.failed files.old)
        (F.failed files.new)) }
    ensures same { OnErr result (shape_of declarations.new ≡ shape_of declarations.old) }
    ensures counted { F.failed files.old ≤ F.failed files.new }
    ensures kept { SameFiles (F.holds files.old) (F.holds files.new) }
{
    match line_of(text) {
        DeclarationLine::Nothing => Ok(()),
        DeclarationLine::Table(name) => declare_table(alloc, files, declarations, name),
        DeclarationLine::Index { name, table, key } => declare_index(
            alloc,
            declarations,
            name,
            table,
            key,
        ),
        DeclarationLine::Other => Err(LineRefusal::Fault(LineFault::Word)),
    }
}

/// Takes the line of that number.
fn declare_at<F: Files>(
    alloc: Global,
    files: &mut F,
    declarations: &mut Declarations,
    text: &[u8],
    line: usize,
) -> Result<(), ShapeRefusal>
    ensures declared { OnOk result (LineDeclares (F.holds files.old) (said_in_line text.now) (shape_of declarations.old)
        (shape_of declarations.new)) }
    ensures legal { is_shape (shape_of declarations.old) ≡ true
        → OnOk result (is_shape (shape_of declarations.new) ≡ true) }
    ensures refused { IfErr result
        (AtLineIs (F.holds files.old) line (shape_of declarations.old) (said_in_line text.now) (F.failed files.old)
        (F.failed files.new)) }
    ensures counted { F.failed files.old ≤ F.failed files.new }
    ensures kept { SameFiles (F.holds files.old) (F.holds files.new) }
{
    match declare(alloc, files, declarations, text) {
        Ok(()) => Ok(()),
        Err(LineRefusal::Fault(fault)) => Err(ShapeRefusal::Refused(DeclFault::Line {
            line,
            fault,
        })),
        Err(LineRefusal::Disk(file)) => Err(ShapeRefusal::TableDisk(file)),
        Err(LineRefusal::Memory) => Err(ShapeRefusal::Memory),
    }
}

/// Takes all lines of a declaration file.
fn declare_all<F: Files>(
    alloc: Global,
    files: &mut F,
    bytes: &[u8],
) -> Result<Declarations, ShapeRefusal>
    ensures declared { IfOk result (λ d. Declare (F.holds files.old) (lines bytes.now) no_shape (shape_of d)) }
    ensures legal { IfOk result (λ d. is_shape (shape_of d) ≡ true) }
    ensures refused { IfErr result (LinesRefusalIs (F.holds files.old) (lines bytes.now) (F.failed files.old)
        (F.failed files.new)) }
    ensures counted { F.failed files.old ≤ F.failed files.new }
    ensures kept { SameFiles (F.holds files.old) (F.holds files.new) }
{
    let mut declarations = Declarations::none(alloc);
    let mut rest = bytes;
    let mut line = 0;
    while !rest.is_empty() {
        let (text, behind) = first_line(rest);
        line += 1;
        declare_at(alloc, files, &mut declarations, text, line)?;
        rest = behind;
    }
    Ok(declarations)
}

/// The bytes of the declaration file.
pub(crate) fn declaration_bytes<F: Files>(
    alloc: Global,
    files: &mut F,
    decl: &str,
) -> Result<Vec<u8>, ShapeRefusal>
    ensures held { IfOk result (λ bytes. F.holds files.old decl.now (Some bytes.items)) }
    ensures short { IfOk result (λ bytes. length bytes.items ≤ 67108864) }
    ensures refused { IfErr result (ShapeRefusalIs (F.holds files.old) decl.now (F.failed files.old)
        (F.failed files.new)) }
    ensures lines { IfErr result IsNoLine }
    ensures counted { F.failed files.old ≤ F.failed files.new }
    ensures kept { SameFiles (F.holds files.old) (F.holds files.new) }
{
    match files.read(alloc, decl, FILE_LIMIT) {
        Ok(bytes) => Ok(bytes),
        Err(ReadFault::Absent) => Err(ShapeRefusal::Refused(DeclFault::Absent)),
        Err(ReadFault::TooLong) => Err(ShapeRefusal::Refused(DeclFault::TooLong)),
        Err(ReadFault::Device) => Err(ShapeRefusal::Disk),
        Err(ReadFault::Memory) => Err(ShapeRefusal::Memory),
    }
}

/// The shape that a declaration file declares. Tables' fields come from the tables' files, with their names in
/// capitals.
///
/// # Errors
///
/// What is wrong with the declaration file: that it is absent or longer than 64 MiB, or its first faulty line. A
/// failure of the device, which was counted. Want of memory.
pub fn read_shape<F: Files>(alloc: Global, files: &mut F, decl: &str) -> Result<Shape, ShapeRefusal>
    // The lines of the file declare the shape, each in its turn.
    ensures declared { IfOk result (IsDeclared (F.holds files.old) decl.now) }
    // It is one that a code can have.
    ensures legal { IfOk result (λ shape. is_shape shape ≡ true) }
    ensures refused { IfErr result (ShapeRefusalIs (F.holds files.old) decl.now (F.failed files.old)
        (F.failed files.new)) }
    ensures counted { F.failed files.old ≤ F.failed files.new }
    ensures kept { SameFiles (F.holds files.old) (F.holds files.new) }
{
    let bytes = declaration_bytes(alloc, files, decl)?;
    match declare_all(alloc, files, bytes.as_slice()) {
        Ok(declarations) => Ok(declarations.whole()),
        Err(refusal) => Err(refusal),
    }
}
