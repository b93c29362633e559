//! What is wrong with a line of a command file or with an expression, and why reading is refused.

ghost use Rattle.std.specs.Prelude.{◌≡◌, length};
ghost use Rattle.prg_expr.specs.declared.fault.FormFault.TheVariants.{Memory};
ghost use Rattle.prg_expr.specs.declared.fault.ParseRefusal.TheVariants as refusal;
ghost use Rattle.prg_expr.specs.Faults as faults;

use std::alloc::{AllocError, AllocFailed};

/// The most bytes of a line.
pub const MOST_BYTES: usize = 1024;

/// The form of more words isn't read, since its tree could get too deep. A line of so many words is too long anyway.
pub const MOST_WORDS: usize = 4096;

/// What is wrong with a line or with an expression. Of a line's faults the one that stands first here is told.
#[derive(Clone, Copy, Debug, PartialEq, Eq)]
pub enum ParseFaultKind {
    /// A byte outside texts and comments that begins no word.
    Character = 1,
    /// A text that doesn't end in its line.
    Text = 2,
    /// A number of more than nineteen digits, or of more than fifteen behind the point.
    Number = 3,
    /// There is no such command or clause, a name is missing, or a word is left over.
    Word = 4,
    /// No expression, or one that is wrong.
    Expression = 5,
    /// A command stands where its block doesn't allow it, or a block isn't ended.
    Block = 6,
    /// A name of more than ten letters, a text of more than 254 bytes, a line of more than 1,024.
    TooLong = 7,
    /// A 33rd parenthesis or block within others.
    TooDeep = 8,
    /// A `&` that begins no comment.
    Macro = 9,
}

/// The place of a kind in the order in which they are told, from 1.
fn rank(kind: ParseFaultKind) -> u8
    ensures { result ≡ faults.rank kind }
{
    kind as u8
}

/// The fault of the two that is told: the lesser one.
pub fn least(told: Option<ParseFaultKind>, found: Option<ParseFaultKind>) -> Option<ParseFaultKind>
    ensures { result ≡ faults.least told found }
{
    let Some(first) = told else {
        return found;
    };
    let Some(second) = found else {
        return told;
    };
    if rank(first) <= rank(second) {
        told
    } else {
        found
    }
}

/// What is wrong with the length of a line.
pub fn length_fault(line: &[u8]) -> Option<ParseFaultKind>
    ensures { result ≡ faults.length_fault (length line.now) }
{
    if MOST_BYTES < line.len() {
        Some(ParseFaultKind::TooLong)
    } else {
        None
    }
}

/// The fault that is told, and where it stands.
#[derive(Clone, Copy)]
pub struct ParseFault {
    /// The line in the file, from 1; of a joined line its first one. An expression by itself is line 1.
    pub line: usize,
    /// What is wrong there.
    pub kind: ParseFaultKind,
}

/// Why words are no expression or command.
#[derive(Clone, Copy)]
pub enum FormFault {
    /// What is wrong where the words stop being one.
    Kind(ParseFaultKind),
    /// Memory ran out.
    Memory,
}

/// Why there is no answer.
#[derive(Clone, Copy)]
pub enum ParseRefusal {
    /// What was to be read is faulty.
    Fault(ParseFault),
    /// Memory ran out.
    Memory,
}

impl From<AllocError> for FormFault {
    ghost from_gives = { λ _ e. e ≡ Memory };

    fn from(_e: AllocError) -> FormFault {
        FormFault::Memory
    }
}

impl<T: Drop> From<AllocFailed<T>> for FormFault {
    ghost from_gives = { λ _ e. e ≡ Memory };

    fn from(_e: AllocFailed<T>) -> FormFault {
        FormFault::Memory
    }
}

impl From<AllocError> for ParseRefusal {
    ghost from_gives = { λ _ e. e ≡ refusal.Memory };

    fn from(_e: AllocError) -> ParseRefusal {
        ParseRefusal::Memory
    }
}

impl<T: Drop> From<AllocFailed<T>> for ParseRefusal {
    ghost from_gives = { λ _ e. e ≡ refusal.Memory };

    fn from(_e: AllocFailed<T>) -> ParseRefusal {
        ParseRefusal::Memory
    }
}
