//! All faults of a declaration file.

ghost use Rattle.std.specs.Prelude.{◌≡◌, ◌≤◌, [], true, IfErr, IfOk, OnOk};
ghost use Rattle.file_access.specs.Holding.{SameFiles};
ghost use Rattle.shape.specs.Whole.{is_shape};
ghost use Rattle.text_lines.specs.Lines.{lines};
ghost use Rattle.shape_files.specs.Lines.{said_in_line};
ghost use Rattle.shape_files.specs.Listing.{IsNoLine, IsOfDevice, IsOfDeviceAtOne};
ghost use Rattle.shape_files.specs.Listing.{JudgedDeclarations, JudgedLine, JudgedLines};
ghost use Rattle.shape_files.specs.Refusals.{ShapeRefusalIs};
ghost use Rattle.shape_files.specs.Shapes.{IsDeclared, shape_of};

use crate::declarations::Declarations;
use crate::reading::{declaration_bytes, declare};
use crate::refusal::{DeclFault, LineRefusal, ShapeRefusal};
use file_access::Files;
use shape::Shape;
use std::alloc::Global;
use text_lines::first_line;

/// A declaration file that was read to its end.
#[derive(Drop)]
pub struct ListedShape {
    /// What its lines without a fault declare.
    pub shape: Shape,
    /// Its faults, line by line.
    pub faults: Vec<DeclFault>,
}

/// Takes the line of that number, or lists its fault.
fn judge<F: Files>(
    alloc: Global,
    files: &mut F,
    declarations: &mut Declarations,
    found: &mut Vec<DeclFault>,
    text: &[u8],
    line: usize,
) -> Result<(), ShapeRefusal>
    ensures judged { OnOk result (JudgedLine (F.holds files.old) line text.now (shape_of declarations.old)
        (shape_of declarations.new) found.old.items found.new.items) }
    ensures legal { is_shape (shape_of declarations.old) ≡ true
        → OnOk result (is_shape (shape_of declarations.new) ≡ true) }
    ensures refused { IfErr result (IsOfDevice (said_in_line text.now) (F.failed files.old) (F.failed files.new)) }
    ensures counted { F.failed files.old ≤ F.failed files.new }
    ensures kept { SameFiles (F.holds files.old) (F.holds files.new) }
{
    match declare(alloc, files, declarations, text) {
        Ok(()) => Ok(()),
        Err(LineRefusal::Fault(fault)) => match found.push(DeclFault::Line { line, fault }) {
            Ok(()) => Ok(()),
            Err(_) => Err(ShapeRefusal::Memory),
        },
        Err(LineRefusal::Disk(file)) => Err(ShapeRefusal::TableDisk(file)),
        Err(LineRefusal::Memory) => Err(ShapeRefusal::Memory),
    }
}

/// Takes all lines of a declaration file, and lists their faults.
fn judge_all<F: Files>(
    alloc: Global,
    files: &mut F,
    bytes: &[u8],
) -> Result<ListedShape, ShapeRefusal>
    ensures judged { IfOk result (λ listed. JudgedLines (F.holds files.old) (lines bytes.now) listed.shape
        listed.faults.items) }
    ensures legal { IfOk result (λ listed. is_shape listed.shape ≡ true) }
    ensures refused { IfErr result (IsOfDeviceAtOne (lines bytes.now) (F.failed files.old) (F.failed files.new)) }
    ensures counted { F.failed files.old ≤ F.failed files.new }
    ensures kept { SameFiles (F.holds files.old) (F.holds files.new) }
{
    let mut declarations = Declarations::none(alloc);
    let mut found = Vec::new(alloc);
    let mut rest = bytes;
    let mut line = 0;
    while !rest.is_empty() {
        let (text, behind) = first_line(rest);
        line += 1;
        judge(alloc, files, &mut declarations, &mut found, text, line)?;
        rest = behind;
    }
    Ok(ListedShape {
        shape: declarations.whole(),
        faults: found,
    })
}

/// All faults of the lines of a declaration file, and what its other lines declare. A line that has a fault declares
/// nothing; so a line may be faulty only because an earlier one is. No file changes.
///
/// # Errors
///
/// That the file is absent or longer than 64 MiB. A failure of the device, which was counted. Want of memory.
pub fn list_shape<F: Files>(
    alloc: Global,
    files: &mut F,
    decl: &str,
) -> Result<ListedShape, ShapeRefusal>
    ensures judged { IfOk result (λ listed. JudgedDeclarations (F.holds files.old) decl.now listed.shape
        listed.faults.items) }
    // Where no line has a fault, all of them declare the shape.
    ensures declared { IfOk result (λ listed. listed.faults.items ≡ []
        → IsDeclared (F.holds files.old) decl.now listed.shape) }
    ensures legal { IfOk result (λ listed. is_shape listed.shape ≡ true) }
    ensures refused { IfErr result (ShapeRefusalIs (F.holds files.old) decl.now (F.failed files.old)
        (F.failed files.new)) }
    // A line's fault is listed, and not refused.
    ensures lines { IfErr result IsNoLine }
    ensures counted { F.failed files.old ≤ F.failed files.new }
    ensures kept { SameFiles (F.holds files.old) (F.holds files.new) }
{
    let bytes = declaration_bytes(alloc, files, decl)?;
    match judge_all(alloc, files, bytes.as_slice()) {
        Ok(listed) => Ok(listed),
        Err(refusal) => Err(refusal),
    }
}
