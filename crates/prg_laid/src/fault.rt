//! Why a code isn't taken.

use prg_code::{CompileError, CompileFaultKind};

/// Why a code isn't taken.
#[derive(Clone, Copy)]
pub enum LayoutFault {
    /// Something else stands there.
    Otherwise,
    /// Memory ran out.
    NoMemory,
}

/// What is found at a place of a code; a fault where something else stands there.
pub type FoundLaid<T> = Result<T, CompileError>;

/// Something else stands there.
pub const OTHERWISE: CompileError = CompileError::Fault(CompileFaultKind::Limit);

impl From<CompileError> for LayoutFault {
    fn from(error: CompileError) -> LayoutFault {
        match error {
            CompileError::Fault(_) => LayoutFault::Otherwise,
            CompileError::NoMemory => LayoutFault::NoMemory,
        }
    }
}
