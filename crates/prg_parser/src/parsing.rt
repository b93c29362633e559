//! From the bytes of a command file to its tree.

ghost use Rattle.std.specs.Prelude.{◌≡◌, ℕ, List, length, IfOk, IfErr, None, [], slice_get};
ghost use Rattle.std.specs.List.{All};
ghost use Rattle.prg_expr.specs.Faults.{OnFault, Tells};
ghost use Rattle.prg_line.specs.Saying.{Saying};
ghost use Rattle.prg_parser.specs.Files.{IsProgramOf, LinesFit};
ghost use Rattle.prg_parser.specs.Commands.{ProgramTree, program_of};
ghost use Rattle.prg_parser.specs.Layout.{laid_program};
ghost use Rattle.prg_parser.specs.declared.program.Program.{Program as AnyProgram};
ghost use Rattle.prg_parser.specs.Lines.{before_end};
ghost use Rattle.text_lines.specs.Lines.{lines as line_list};
ghost use Rattle.prg_parser.specs.Marks as spec;
ghost use Rattle.prg_parser.specs.Verdict.{IsLineOf, NamesLine, verdict};
ghost use Rattle.prg_parser.specs.Listing.{all_faults};

use crate::half_read::{file_marks, finished, read_file};
use crate::listing::list_faults;
use crate::program::Program;
use prg_expr::{ParseFault, ParseRefusal};
use prg_line::{lines_are_read, one_saying};
use std::alloc::{AllocError, Global};

/// The program of a command file.
///
/// # Errors
///
/// The fault of the file's first faulty line, and there the least kind, with the line's number from 1; of a joined line
/// that of its first. Without any other fault, Block at the line of the first block that isn't ended. Want of memory.
pub fn parse(alloc: Global, bytes: &[u8]) -> Result<Program, ParseRefusal>
    // The fault is that of the first faulty line, and there the least kind.
    ensures told { IfErr result (Tells (verdict [] None (spec.marks bytes.now))) }
    // It names a line of the file.
    ensures named { IfErr result (NamesLine (length (line_list (before_end bytes.now)))) }
    // A program is answered only of a file without any fault.
    ensures faultless { IfOk result (λ program. verdict [] None (spec.marks bytes.now) ≡ None) }
    // Each line is spelled as the form of its command says and stands where it may, and the program is what they say.
    ensures spelled { IfOk result (IsProgramOf bytes.now) }
    // A file is refused for another cause than memory only where its lines don't all say something that fits.
    ensures refused { IfErr result
        (λ refusal. OnFault refusal ((sayings : List Saying) → LinesFit bytes.now sayings → ⊥)) }
{
    lines_are_read();
    match read_file(alloc, bytes) {
        Ok(half) => finished(half),
        Err(refusal) => Err(refusal),
    }
}

/// All faults of a command file: of each line with a fault the least kind, in the order of the lines, and behind them
/// Block at the line of each block that isn't ended. A faulty line that opens a block still opens it. Lines are
/// counted from 1; a joined line has the number of its first.
///
/// # Errors
///
/// Want of memory.
pub fn line_faults(alloc: Global, bytes: &[u8]) -> Result<Vec<ParseFault>, AllocError>
    // Each fault is listed, and nothing else.
    ensures all { IfOk result (λ faults. faults.items ≡ all_faults (spec.marks bytes.now)) }
    // The first one is the fault that `parse` tells, so none is listed exactly where `parse` answers a program.
    ensures told { IfOk result (λ faults. slice_get faults.items 0 ≡ verdict [] None (spec.marks bytes.now)) }
    // Each names a line of the file.
    ensures named { IfOk result (λ faults.
        All (λ fault. IsLineOf (length (line_list (before_end bytes.now))) fault.line) faults.items) }
{
    let marks = file_marks(alloc, bytes)?;
    list_faults(alloc, &marks)
}

/// A file is one program at most.
pub fn one_program()
    // Programs of the same lines are the same tree.
    ensures same { (a b : ProgramTree) → laid_program a ≡ laid_program b → a ≡ b }
    // The programs that a file is are the same tree.
    ensures one { (bytes : List ℕ) (a b : AnyProgram) → IsProgramOf bytes a → IsProgramOf bytes b
        → program_of a ≡ program_of b }
{
    one_saying();
}
