//! Why files aren't compiled.

use prg_compile::CompileFaultKind;
use prg_parser::ParseFaultKind;
use shape_files::{ShapeRefusal, file_of};
use std::fmt;
use thiserror::Error;

/// What is wrong with a command file.
#[derive(Clone, Copy, PartialEq, Eq, Debug, Error)]
pub enum SourceFault {
    /// There is none of that name.
    #[error("Absent")]
    Absent,
    /// It is longer than 64 MiB.
    #[error("TooLong")]
    TooLong,
    /// A line of it can't be read, or a block isn't ended.
    #[error("line {line} {kind:?}")]
    Parse { line: usize, kind: ParseFaultKind },
    /// A command of it can't be compiled; line 0 where no command is told.
    #[error("line {line} {kind}")]
    Compile { line: usize, kind: CompileFaultKind },
}

/// Why files aren't compiled. Command files go by their numbers, counted from 0.
#[derive(PartialEq, Eq, Debug, Drop)]
pub enum CompileFilesRefusal {
    /// No shape is read.
    Declarations(ShapeRefusal),
    /// A command file is faulty.
    Source { file: usize, fault: SourceFault },
    /// The device failed at a command file.
    SourceDisk { file: usize },
    /// The device failed at the code file.
    CodeDisk,
    /// Memory ran out.
    Memory,
}

/// The words of the command line that name files.
#[derive(Clone, Copy, Debug)]
pub struct CompileWords<'a> {
    /// The declaration file.
    pub decl: &'a str,
    /// The code file.
    pub out: &'a str,
    /// The command files, the main one first.
    pub names: &'a [&'a str],
}

/// A refusal as it is printed, with files named as the words do and tables by their files.
#[derive(Clone, Copy)]
pub struct CompileTold<'a> {
    pub refusal: &'a CompileFilesRefusal,
    pub words: CompileWords<'a>,
}

impl CompileTold<'_> {
    fn source(&self, file: usize) -> &str {
        match self.words.names.get(file) {
            Some(name) => name,
            None => "",
        }
    }
}

/// `refused NAME FAULT`, `disk NAME` or `memory`.
impl fmt::Display for CompileTold<'_> {
    fn fmt<W: fmt::Write>(&self, f: &mut fmt::Formatter<W>) -> fmt::Result {
        let decl = self.words.decl;
        let out = self.words.out;
        match self.refusal {
            CompileFilesRefusal::Declarations(refusal) => put_declarations(f, decl, refusal),
            CompileFilesRefusal::Source { file, fault } => {
                let name = self.source(*file);
                write!(f, "refused {name} {fault}")
            }
            CompileFilesRefusal::SourceDisk { file } => {
                let name = self.source(*file);
                write!(f, "disk {name}")
            }
            CompileFilesRefusal::CodeDisk => write!(f, "disk {out}"),
            CompileFilesRefusal::Memory => write!(f, "memory"),
        }
    }
}

fn put_declarations<W: fmt::Write>(
    f: &mut fmt::Formatter<W>,
    decl: &str,
    refusal: &ShapeRefusal,
) -> fmt::Result {
    match refusal {
        ShapeRefusal::Refused(fault) => write!(f, "refused {decl} {fault}"),
        ShapeRefusal::Disk => write!(f, "disk {decl}"),
        ShapeRefusal::TableDisk(name) => match file_of(name.as_slice()) {
            Some(file) => write!(f, "disk {file}"),
            None => write!(f, "disk"),
        },
        ShapeRefusal::Memory => write!(f, "memory"),
    }
}
