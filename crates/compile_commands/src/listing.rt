//! All faults of a declaration file and of command files.

ghost use Rattle.std.specs.Prelude.{◌≡◌, ◌<◌, ◌≤◌, ◌∷◌, ◌⊎◌, ◌↔◌, [], List, length, map, IfErr, IfOk, IsTrue, OnOk};
ghost use Rattle.file_access.specs.Holding.{SameFiles};
ghost use Rattle.prg_compile.specs.Alone.{IsCompilable};
ghost use Rattle.prg_parser.specs.Listing.{all_faults};
ghost use Rattle.prg_parser.specs.Marks.{marks};
ghost use Rattle.compile_commands.specs.Listing as spec;
ghost use Rattle.compile_commands.specs.Listing.{AreFaultless, AreListed, AreFaultsOf, IsListedBehind, command_fault};
ghost use Rattle.compile_commands.specs.Refusals.{CompileFilesRefusalIs, SourceRefusalIs, SourcesRefusalIs};
ghost use Rattle.compile_commands.specs.declared.listing.FileFault.{FileFault as OneFault};
ghost use Rattle.shape.specs.declared.whole.Shape.{Shape as AnyShape};
ghost use Rattle.shape_files.specs.Listing.{JudgedDeclarations};

use crate::refusal::{CompileFilesRefusal, SourceFault};
use crate::sources::programs_of;
use file_access::{FILE_LIMIT, Files, ReadFault};
use prg_compile::{CompileFault, find_faults};
use prg_parser::{ParseFault, Program, line_faults};
use shape::Shape;
use shape_files::{DeclFault, ListedShape, list_shape};
use std::alloc::{AllocError, Global};

/// A fault of a command file, which goes by its number, counted from 0.
#[derive(Clone, Copy, PartialEq, Eq, Debug)]
pub struct FileFault {
    pub file: usize,
    pub fault: SourceFault,
}

/// All faults that were found.
#[derive(Drop)]
pub struct FoundFaults {
    /// Those of the declaration file, line by line.
    pub declarations: Vec<DeclFault>,
    /// Those of command files, file by file.
    pub commands: Vec<FileFault>,
}

impl FoundFaults {
    /// Whether there is none.
    pub fn is_empty(&self) -> bool
        ensures { IsTrue result ↔ ((self.now.declarations.items ≡ []) × (self.now.commands.items ≡ [])) }
    {
        self.declarations.is_empty() && self.commands.is_empty()
    }
}

/// A fault of a line of this file.
fn line_fault(file: usize, fault: ParseFault) -> FileFault
    ensures { result ≡ spec.line_fault file fault }
{
    FileFault {
        file,
        fault: SourceFault::Parse {
            line: fault.line,
            kind: fault.kind,
        },
    }
}

/// The faults of lines as those of this file.
fn of_lines(alloc: Global, file: usize, faults: &[ParseFault]) -> Result<Vec<FileFault>, AllocError>
    ensures { IfOk result (λ own. own.items ≡ map (spec.line_fault file) faults.now) }
{
    let mut own = Vec::with_capacity(alloc, faults.len())?;
    for fault in faults {
        own.push(line_fault(file, *fault))?;
    }
    Ok(own)
}

/// All faults of the lines of this file, which has these bytes.
fn faults_in(alloc: Global, file: usize, bytes: &[u8]) -> Result<Vec<FileFault>, AllocError>
    ensures { IfOk result (λ own. own.items ≡ map (spec.line_fault file) (all_faults (marks bytes.now))) }
{
    let faults = line_faults(alloc, bytes)?;
    of_lines(alloc, file, &faults)
}

/// The fault of a file that isn't read.
fn only(alloc: Global, file: usize, fault: SourceFault) -> Result<Vec<FileFault>, AllocError>
    ensures { IfOk result (λ own. own.items ≡ (record { file = file; fault = fault }) ∷ []) }
{
    let mut own = Vec::new(alloc);
    own.push(FileFault { file, fault })?;
    Ok(own)
}

/// All faults of the command file of this name and number.
fn faults_of_file<F: Files>(
    alloc: Global,
    files: &mut F,
    name: &str,
    file: usize,
) -> Result<Vec<FileFault>, CompileFilesRefusal>
    ensures listed { IfOk result (λ own. AreFaultsOf file (F.holds files.old name.now) own.items) }
    ensures refused { IfErr result (SourceRefusalIs file (F.holds files.old name.now) (F.failed files.old)
        (F.failed files.new)) }
    ensures counted { F.failed files.old ≤ F.failed files.new }
    ensures kept { SameFiles (F.holds files.old) (F.holds files.new) }
{
    match files.read(alloc, name, FILE_LIMIT) {
        Ok(bytes) => match faults_in(alloc, file, bytes.as_slice()) {
            Ok(own) => Ok(own),
            Err(_) => Err(CompileFilesRefusal::Memory),
        },
        Err(ReadFault::Absent) => match only(alloc, file, SourceFault::Absent) {
            Ok(own) => Ok(own),
            Err(_) => Err(CompileFilesRefusal::Memory),
        },
        Err(ReadFault::TooLong) => match only(alloc, file, SourceFault::TooLong) {
            Ok(own) => Ok(own),
            Err(_) => Err(CompileFilesRefusal::Memory),
        },
        Err(ReadFault::Device) => Err(CompileFilesRefusal::SourceDisk { file }),
        Err(ReadFault::Memory) => Err(CompileFilesRefusal::Memory),
    }
}

/// Lists all faults of the command file of this name and number behind those that are found.
fn list_file<F: Files>(
    alloc: Global,
    files: &mut F,
    found: &mut Vec<FileFault>,
    name: &str,
    file: usize,
) -> Result<(), CompileFilesRefusal>
    ensures listed { OnOk result (IsListedBehind file (F.holds files.old name.now) found.old.items found.new.items) }
    ensures refused { IfErr result (SourceRefusalIs file (F.holds files.old name.now) (F.failed files.old)
        (F.failed files.new)) }
    ensures counted { F.failed files.old ≤ F.failed files.new }
    ensures kept { SameFiles (F.holds files.old) (F.holds files.new) }
{
    let own = faults_of_file(alloc, files, name, file)?;
    match found.extend_from_slice(own.as_slice()) {
        Ok(()) => Ok(()),
        Err(_) => Err(CompileFilesRefusal::Memory),
    }
}

/// All faults of the lines of command files, file by file.
fn list_files<F: Files>(
    alloc: Global,
    files: &mut F,
    names: &[&str],
) -> Result<Vec<FileFault>, CompileFilesRefusal>
    ensures listed { IfOk result (λ found. AreListed (F.holds files.old) (map (λ name. name.now) names.now)
        (length names.now) found.items) }
    ensures refused { IfErr result (SourcesRefusalIs (F.holds files.old) (map (λ name. name.now) names.now)
        (F.failed files.old) (F.failed files.new)) }
    ensures counted { F.failed files.old ≤ F.failed files.new }
    ensures kept { SameFiles (F.holds files.old) (F.holds files.new) }
{
    let mut found = Vec::new(alloc);
    for (file, name) in names.iter().enumerate() {
        list_file(alloc, files, &mut found, name, file)?;
    }
    Ok(found)
}

/// The faults of the compiler as those of files.
fn of_commands(alloc: Global, faults: &[CompileFault]) -> Result<Vec<FileFault>, AllocError>
    ensures { IfOk result (λ found. found.items ≡ map command_fault faults.now) }
{
    let mut found = Vec::with_capacity(alloc, faults.len())?;
    for fault in faults {
        found.push(command_fault(*fault))?;
    }
    Ok(found)
}

/// A fault of the compiler as that of a file.
fn command_fault(fault: CompileFault) -> FileFault
    ensures { result ≡ spec.command_fault fault }
{
    FileFault {
        file: fault.file,
        fault: SourceFault::Compile {
            line: fault.line,
            kind: fault.kind,
        },
    }
}

/// The faults that the compiler finds in programs, the main one first, for tables and indexes of this shape.
fn faults_of_commands(
    alloc: Global,
    programs: &[Program],
    shape: &Shape,
) -> Result<Vec<FileFault>, AllocError>
    requires { 0 < length programs.now }
    ensures { IfOk result (λ found. found.items ≡ [] → IsCompilable shape.now programs.now) }
{
    let faults = find_faults(alloc, programs, shape)?;
    of_commands(alloc, &faults)
}

/// All faults of a declaration file and of command files, the main one first. They are those of every file's lines,
/// file by file. Where there are none, they are those that the compiler finds: one of each line, and first the one that
/// `compile_files` tells. A line of the declaration file that has a fault declares nothing. A command file that isn't
/// there or is too long is listed with that as its fault. No file changes.
///
/// # Errors
///
/// A declaration file that isn't there or is too long, a device that failed, want of memory.
pub fn faults_of<F: Files>(
    alloc: Global,
    files: &mut F,
    decl: &str,
    names: &[&str],
) -> Result<FoundFaults, CompileFilesRefusal>
    requires { 0 < length names.now }
    // All faults of the declaration file are listed.
    ensures declared { IfOk result (λ found. (shape : AnyShape)
        × JudgedDeclarations (F.holds files.old) decl.now shape found.declarations.items) }
    // So are all faults of lines of command files, and other faults only where no line has one.
    ensures lines { IfOk result (λ found. (lines : List OneFault)
        × AreListed (F.holds files.old) (map (λ name. name.now) names.now) (length names.now) lines
        × ((found.commands.items ≡ lines) ⊎ ((lines ≡ []) × (found.declarations.items ≡ [])))) }
    // None is listed only where the files are compiled.
    ensures faultless { IfOk result (λ found. found.declarations.items ≡ [] → found.commands.items ≡ []
        → AreFaultless (F.holds files.old) decl.now (map (λ name. name.now) names.now)) }
    ensures refused { IfErr result (CompileFilesRefusalIs (F.holds files.old) decl.now
        (map (λ name. name.now) names.now) (F.failed files.old) (F.failed files.new)) }
    ensures kept { SameFiles (F.holds files.old) (F.holds files.new) }
    ensures counted { F.failed files.old ≤ F.failed files.new }
{
    let ListedShape { shape, faults } = match list_shape(alloc, files, decl) {
        Ok(listed) => listed,
        Err(refusal) => return Err(CompileFilesRefusal::Declarations(refusal)),
    };
    let lines = list_files(alloc, files, names)?;
    if !faults.is_empty() || !lines.is_empty() {
        return Ok(FoundFaults {
            declarations: faults,
            commands: lines,
        });
    }
    let programs = programs_of(alloc, files, names)?;
    match faults_of_commands(alloc, &programs, &shape) {
        Ok(commands) => Ok(FoundFaults {
            declarations: faults,
            commands,
        }),
        Err(_) => Err(CompileFilesRefusal::Memory),
    }
}
