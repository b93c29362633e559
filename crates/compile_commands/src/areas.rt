//! The work areas at the command for which command files aren't compiled.

ghost use Rattle.std.specs.Prelude.{◌<◌, ◌≤◌, length, IfSome};
ghost use Rattle.file_access.specs.Holding.{SameFiles};
ghost use Rattle.met_areas.specs.Met.{AreasOfShape};
ghost use Rattle.compile_commands.specs.Areas.{AreOfDeclared};

use crate::sources::programs_of;
use file_access::Files;
use met_areas::MetAreas;
use prg_compile::areas_at_fault;
use prg_parser::Program;
use shape::Shape;
use shape_files::read_shape;
use std::alloc::Global;

/// The work areas at the first faulty command of programs, the main one first.
fn areas_of(alloc: Global, programs: &[Program], shape: &Shape) -> Option<MetAreas>
    requires { 0 < length programs.now }
    ensures { IfSome result (AreasOfShape shape.now) }
{
    match areas_at_fault(alloc, programs, shape) {
        Ok(found) => found,
        Err(_) => None,
    }
}

/// The work areas at the first command of these files that can't be compiled, the main file first, for the tables and
/// indexes of a declaration file. None where no command is faulty, where a file can't be read, and where memory was
/// refused. No file changes.
pub fn areas_where_refused<F: Files>(
    alloc: Global,
    files: &mut F,
    decl: &str,
    names: &[&str],
) -> Option<MetAreas>
    requires { 0 < length names.now }
    // Tables go by the names that the declaration file declares.
    ensures declared { IfSome result (AreOfDeclared (F.holds files.old) decl.now) }
    ensures kept { SameFiles (F.holds files.old) (F.holds files.new) }
    ensures counted { F.failed files.old ≤ F.failed files.new }
{
    let Ok(shape) = read_shape(alloc, files, decl) else {
        return None;
    };
    let Ok(programs) = programs_of(alloc, files, names) else {
        return None;
    };
    areas_of(alloc, &programs, &shape)
}
