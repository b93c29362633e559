//! Command files read.

ghost use Rattle.std.specs.Prelude.{◌≡◌, ◌+◌, ◌≤◌, Some, length, map, IfErr, IfOk, OnOk};
ghost use Rattle.file_access.specs.Holding.{SameFiles};
ghost use Rattle.compile_commands.specs.Compiling.{AreRead, IsRead};
ghost use Rattle.compile_commands.specs.Refusals.{SourceRefusalIs, SourcesRefusalIs};

use crate::refusal::{CompileFilesRefusal, SourceFault};
use file_access::{FILE_LIMIT, Files, ReadFault};
use prg_parser::{ParseFault, ParseRefusal, Program, Text, parse};
use std::alloc::Global;

/// A file's name up to its last point.
fn stem(name: &[u8]) -> &[u8] {
    let mut rest = name;
    while let [front @ .., last] = rest {
        if *last == b'.' {
            return front;
        }
        rest = front;
    }
    name
}

/// The name under which DO finds a command file: its name up to the last point, in capitals.
fn program_name(name: &str) -> Text {
    let mut text = Text::new();
    for byte in stem(name.as_bytes()) {
        let _ = text.try_push(byte.to_ascii_uppercase());
    }
    text
}

/// The bytes of a command file, which is that of this number.
fn source_bytes<F: Files>(
    alloc: Global,
    files: &mut F,
    name: &str,
    file: usize,
) -> Result<Vec<u8>, CompileFilesRefusal>
    ensures held { IfOk result (λ bytes. F.holds files.old name.now (Some bytes.items)) }
    ensures refused { IfErr result (SourceRefusalIs file (F.holds files.old name.now) (F.failed files.old)
        (F.failed files.new)) }
    ensures counted { F.failed files.old ≤ F.failed files.new }
    ensures kept { SameFiles (F.holds files.old) (F.holds files.new) }
{
    match files.read(alloc, name, FILE_LIMIT) {
        Ok(bytes) => Ok(bytes),
        Err(ReadFault::Absent) => Err(CompileFilesRefusal::Source {
            file,
            fault: SourceFault::Absent,
        }),
        Err(ReadFault::TooLong) => Err(CompileFilesRefusal::Source {
            file,
            fault: SourceFault::TooLong,
        }),
        Err(ReadFault::Device) => Err(CompileFilesRefusal::SourceDisk { file }),
        Err(ReadFault::Memory) => Err(CompileFilesRefusal::Memory),
    }
}

/// The program of a command file, which is that of this number.
fn program_of<F: Files>(
    alloc: Global,
    files: &mut F,
    name: &str,
    file: usize,
) -> Result<Program, CompileFilesRefusal>
    ensures read { IfOk result (λ _. IsRead (F.holds files.old name.now)) }
    ensures refused { IfErr result (SourceRefusalIs file (F.holds files.old name.now) (F.failed files.old)
        (F.failed files.new)) }
    ensures counted { F.failed files.old ≤ F.failed files.new }
    ensures kept { SameFiles (F.holds files.old) (F.holds files.new) }
{
    let bytes = source_bytes(alloc, files, name, file)?;
    match parse(alloc, bytes.as_slice()) {
        Ok(program) => Ok(program.named(program_name(name))),
        Err(ParseRefusal::Fault(ParseFault { line, kind })) => Err(CompileFilesRefusal::Source {
            file,
            fault: SourceFault::Parse { line, kind },
        }),
        Err(ParseRefusal::Memory) => Err(CompileFilesRefusal::Memory),
    }
}

/// Adds the program of a command file, which is that of this number.
fn add_program<F: Files>(
    alloc: Global,
    files: &mut F,
    programs: &mut Vec<Program>,
    name: &str,
    file: usize,
) -> Result<(), CompileFilesRefusal>
    ensures read { OnOk result (IsRead (F.holds files.old name.now)) }
    ensures more { OnOk result (length programs.new.items ≡ length programs.old.items + 1) }
    ensures refused { IfErr result (SourceRefusalIs file (F.holds files.old name.now) (F.failed files.old)
        (F.failed files.new)) }
    ensures counted { F.failed files.old ≤ F.failed files.new }
    ensures kept { SameFiles (F.holds files.old) (F.holds files.new) }
{
    let program = program_of(alloc, files, name, file)?;
    match programs.push(program) {
        Ok(()) => Ok(()),
        Err(_) => Err(CompileFilesRefusal::Memory),
    }
}

/// The programs of command files, each read and parsed before the next one.
pub fn programs_of<F: Files>(
    alloc: Global,
    files: &mut F,
    names: &[&str],
) -> Result<Vec<Program>, CompileFilesRefusal>
    ensures read { IfOk result (λ _. AreRead (F.holds files.old) (map (λ name. name.now) names.now)) }
    ensures all { IfOk result (λ programs. length programs.items ≡ length names.now) }
    ensures refused { IfErr result (SourcesRefusalIs (F.holds files.old) (map (λ name. name.now) names.now)
        (F.failed files.old) (F.failed files.new)) }
    ensures counted { F.failed files.old ≤ F.failed files.new }
    ensures kept { SameFiles (F.holds files.old) (F.holds files.new) }
{
    let mut programs = Vec::new(alloc);
    for (file, name) in names.iter().enumerate() {
        add_program(alloc, files, &mut programs, name, file)?;
    }
    Ok(programs)
}
