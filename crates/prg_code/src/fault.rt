//! Why command files are not compiled.

ghost use Rattle.std.specs.Prelude.{◌≡◌};
ghost use Rattle.prg_code.specs.declared.fault.CompileError.TheVariants as error;
ghost use Rattle.prg_code.specs.declared.fault.CompileFault.{CompileFault as AnyFault};
ghost use Rattle.prg_code.specs.declared.fault.CompileRefusal.TheVariants as refusal;
ghost use Rattle.prg_code.specs.Parts.{told_at};

use std::alloc::{AllocError, AllocFailed};
use std::fmt;

/// What is wrong with a command.
#[derive(Clone, Copy, Debug, PartialEq, Eq)]
pub enum CompileFaultKind {
    /// A name of no field, variable, table, index or procedure.
    Name,
    /// A value of another kind than is taken.
    Kind,
    /// A variable that may have no value.
    Unset,
    /// The work area needed isn't known to be open.
    ClosedArea,
    /// The work area has no such order, or none to seek by.
    NoOrder,
    /// The table is or may be open in another work area.
    OpenTwice,
    /// Ways meet on which different work areas are selected.
    Merge,
    /// A filter reads what it may not, or a move meets a filter whose variables aren't known to be set.
    Filter,
    /// A procedure is called that is being run.
    Recursion,
    /// There are more copies of procedures than a code may have.
    Copies,
    /// The code would have more of something than it may.
    Limit,
    /// Arguments and parameters don't agree in number, or PARAMETERS stands where it may not.
    Parameters,
    /// A command stands between a GET and its READ, or there is no READ.
    Get,
    /// A key or a table isn't that of the declared index.
    Index,
}

impl CompileFaultKind {
    /// Its name.
    fn name(self) -> &'static str {
        match self {
            CompileFaultKind::Name => "Name",
            CompileFaultKind::Kind => "Kind",
            CompileFaultKind::Unset => "Unset",
            CompileFaultKind::ClosedArea => "ClosedArea",
            CompileFaultKind::NoOrder => "NoOrder",
            CompileFaultKind::OpenTwice => "OpenTwice",
            CompileFaultKind::Merge => "Merge",
            CompileFaultKind::Filter => "Filter",
            CompileFaultKind::Recursion => "Recursion",
            CompileFaultKind::Copies => "Copies",
            CompileFaultKind::Limit => "Limit",
            CompileFaultKind::Parameters => "Parameters",
            CompileFaultKind::Get => "Get",
            CompileFaultKind::Index => "Index",
        }
    }
}

impl fmt::Display for CompileFaultKind {
    fn fmt<W: fmt::Write>(&self, f: &mut fmt::Formatter<W>) -> fmt::Result {
        f.write_str(self.name())
    }
}

/// A fault, and where it stands.
#[derive(Clone, Copy)]
pub struct CompileFault {
    /// The number of the command file, counted from 0.
    pub file: usize,
    /// The line in that file, from 1; 0 where no command is told.
    pub line: usize,
    /// What is wrong there.
    pub kind: CompileFaultKind,
}

/// Why a command isn't compiled.
#[derive(Clone, Copy)]
pub enum CompileError {
    /// It is faulty.
    Fault(CompileFaultKind),
    /// Memory ran out.
    NoMemory,
}

/// Why there is no code.
#[derive(Clone, Copy)]
pub enum CompileRefusal {
    /// A command is faulty.
    Fault(CompileFault),
    /// Memory ran out.
    NoMemory,
}

impl CompileError {
    /// The same of a command in this line of this file.
    pub fn at(self, file: usize, line: usize) -> CompileRefusal
        ensures { result ≡ told_at self file line }
    {
        match self {
            CompileError::Fault(kind) => CompileRefusal::Fault(CompileFault { file, line, kind }),
            CompileError::NoMemory => CompileRefusal::NoMemory,
        }
    }
}

/// The same without its line.
impl From<CompileRefusal> for CompileError {
    ghost from_gives = { λ told e. (told ≡ refusal.NoMemory → e ≡ error.NoMemory)
        × ((fault : AnyFault) → told ≡ refusal.Fault fault → e ≡ error.Fault fault.kind) };

    fn from(refusal: CompileRefusal) -> CompileError {
        match refusal {
            CompileRefusal::Fault(fault) => CompileError::Fault(fault.kind),
            CompileRefusal::NoMemory => CompileError::NoMemory,
        }
    }
}

impl From<CompileFaultKind> for CompileError {
    ghost from_gives = { λ k e. e ≡ error.Fault k };

    fn from(kind: CompileFaultKind) -> CompileError {
        CompileError::Fault(kind)
    }
}

impl From<AllocError> for CompileError {
    ghost from_gives = { λ _ e. e ≡ error.NoMemory };

    fn from(_error: AllocError) -> CompileError {
        CompileError::NoMemory
    }
}

impl<T: Drop> From<AllocFailed<T>> for CompileError {
    ghost from_gives = { λ _ e. e ≡ error.NoMemory };

    fn from(_error: AllocFailed<T>) -> CompileError {
        CompileError::NoMemory
    }
}

impl From<AllocError> for CompileRefusal {
    ghost from_gives = { λ _ e. e ≡ refusal.NoMemory };

    fn from(_error: AllocError) -> CompileRefusal {
        CompileRefusal::NoMemory
    }
}

impl<T: Drop> From<AllocFailed<T>> for CompileRefusal {
    ghost from_gives = { λ _ e. e ≡ refusal.NoMemory };

    fn from(_error: AllocFailed<T>) -> CompileRefusal {
        CompileRefusal::NoMemory
    }
}
