//! From command files to a code file.

ghost use Rattle.std.specs.Prelude.{◌<◌, ◌≤◌, length, map, IfErr, IfOk, OnErr, OnOk};
ghost use Rattle.file_access.specs.Holding.{SameFiles};
ghost use Rattle.compile_commands.specs.Compiling.{IsCodeOf, IsCompiled};
ghost use Rattle.compile_commands.specs.Refusals.{CompileFilesRefusalIs, IsCompilers};

use crate::refusal::{CompileFilesRefusal, SourceFault};
use crate::sources::programs_of;
use file_access::Files;
use prg_compile::{CompileRefusal, compile};
use prg_parser::Program;
use shape::Shape;
use shape_files::read_shape;
use std::alloc::Global;
use xcode::encode;

/// The bytes of the code file of programs, the main one first, for tables and indexes of this shape.
fn compiled(
    alloc: Global,
    programs: &[Program],
    shape: &Shape,
) -> Result<Vec<u8>, CompileFilesRefusal>
    requires { 0 < length programs.now }
    ensures coded { IfOk result (λ bytes. IsCodeOf shape.now bytes.items) }
    ensures refused { IfErr result IsCompilers }
{
    match compile(alloc, programs, shape) {
        Ok(verified) => match encode(alloc, verified.legal()) {
            Ok(bytes) => Ok(bytes),
            Err(_) => Err(CompileFilesRefusal::Memory),
        },
        Err(CompileRefusal::Fault(fault)) => Err(CompileFilesRefusal::Source {
            file: fault.file,
            fault: SourceFault::Compile {
                line: fault.line,
                kind: fault.kind,
            },
        }),
        Err(CompileRefusal::NoMemory) => Err(CompileFilesRefusal::Memory),
    }
}

/// Compiles command files, the main one first, for the tables and indexes of a declaration file, and writes the code
/// file.
///
/// # Errors
///
/// The first refusal that is met: of the declaration file or a table's file, of each command file in turn, of the
/// compiler, of the device where the code file is written. No file changes then.
pub fn compile_files<F: Files>(
    alloc: Global,
    files: &mut F,
    decl: &str,
    out: &str,
    names: &[&str],
) -> Result<(), CompileFilesRefusal>
    requires { 0 < length names.now }
    // The code file alone changes: it holds the text of an accepted code of the declared shape.
    ensures compiled { OnOk result (IsCompiled (F.holds files.old) decl.now out.now (map (λ name. name.now) names.now)
        (F.holds files.new)) }
    ensures refused { IfErr result (CompileFilesRefusalIs (F.holds files.old) decl.now
        (map (λ name. name.now) names.now) (F.failed files.old) (F.failed files.new)) }
    // On a refusal no file changes.
    ensures kept { OnErr result (SameFiles (F.holds files.old) (F.holds files.new)) }
    ensures counted { F.failed files.old ≤ F.failed files.new }
{
    let shape = match read_shape(alloc, files, decl) {
        Ok(shape) => shape,
        Err(refusal) => return Err(CompileFilesRefusal::Declarations(refusal)),
    };
    let programs = programs_of(alloc, files, names)?;
    let bytes = compiled(alloc, &programs, &shape)?;
    match files.replace(out, bytes) {
        Ok(()) => Ok(()),
        Err(_) => Err(CompileFilesRefusal::CodeDisk),
    }
}
