//! Who types the lines of a run, and what is seen of it.

ghost use Rattle.operating.specs.Answers.{NotesFailure, answer_bytes, broken_by, failed_by};
ghost use Rattle.operating.specs.declared.operator.Broken.TheVariants.{Memory as OfMemory};
ghost use Rattle.operating.specs.declared.operator.OperatorFailed.{OperatorFailed as AnyFailure};
ghost use Rattle.operating.specs.declared.operator.OperatorFailed.TheVariants.{Memory as ForMemory};
ghost use Rattle.std.specs.IoError.{error_kind};
ghost use Rattle.std.specs.Prelude.{◌≡◌, ◌++◌, ℕ, List, Option, IfOk, OnErr};

use code_items::Code;
use machine::ShownAt;
use screen_lines::Screen;
use std::alloc::AllocError;
use std::io::{self, ErrorKind};

/// The field of a table for which a line is taken: the bytes of its texts, and the digits after a number's point.
#[derive(Clone, Copy)]
pub struct FieldSize {
    pub width: u8,
    pub decimals: u8,
}

/// What an operator sees of a run that waits, or that stands at a marked place.
#[derive(Clone, Copy)]
pub struct Scene<'a> {
    /// The code that runs.
    pub code: &'a Code,
    /// The screen as it stands, with the bytes of the rows that were sent so far.
    pub screen: &'a Screen,
    /// The place of the next instruction in the code.
    pub place: usize,
    /// At a marked place, where the next instruction shows a value on the screen, if it does; else none.
    pub shown: Option<ShownAt>,
    /// Where a line is asked for: the field in which its value is stored, if that is a field of the selected table;
    /// else none.
    pub field: Option<FieldSize>,
}

/// What an operator answers.
#[derive(Drop)]
pub enum Answer {
    /// A line, without its LF.
    Line(Vec<u8>),
    /// The end of the input: each further line is empty.
    End,
}

/// Why the operator failed.
#[derive(Clone, Copy)]
pub enum OperatorFailed {
    /// Memory was refused.
    Memory,
    /// Anything else: a device or a file failed or isn't as it was, or whoever types left.
    Other,
}

impl From<AllocError> for OperatorFailed {
    ghost from_gives = { λ _ why. why ≡ ForMemory };

    fn from(_: AllocError) -> OperatorFailed {
        OperatorFailed::Memory
    }
}

/// An error of a stream or a file that says that memory was refused is `Memory`.
impl From<io::Error> for OperatorFailed {
    ghost from_gives = { λ error why. why ≡ failed_by (error_kind error) };

    fn from(error: io::Error) -> OperatorFailed {
        match error.kind() {
            ErrorKind::OutOfMemory => OperatorFailed::Memory,
            _ => OperatorFailed::Other,
        }
    }
}

/// Who types the lines of a run.
pub trait Operator {
    /// The bytes of all lines that were answered, each with LF after it.
    ghost answered: { Self → List ℕ };

    /// Why it failed last; none as long as it hasn't.
    ghost failure: { Self → Option AnyFailure };

    /// The run begins: its tables are loaded, and no step is taken yet. Answers which places are marked, one truth
    /// value for each place of the code from 0 on; those that are missing aren't.
    fn begin(&mut self, code: &Code) -> Result<Vec<bool>, OperatorFailed>
        ensures untold { answered self.new ≡ answered self.old }
        ensures cause { NotesFailure result (failure self.old) (failure self.new) };

    /// The run has taken steps of this cost, of a budget that it had at its beginning. Answers what it goes on for at
    /// most before this is told again. A next step that is dearer is taken all the same, where the budget pays for it.
    fn hear(&mut self, steps: u64, budget: u64) -> u64
        ensures untold { answered self.new ≡ answered self.old }
        ensures unfailed { failure self.new ≡ failure self.old };

    /// The run has come to a marked place.
    fn see(&mut self, view: &Scene<'_>) -> Result<(), OperatorFailed>
        ensures untold { answered self.new ≡ answered self.old }
        ensures cause { NotesFailure result (failure self.old) (failure self.new) };

    /// The next instruction takes a line, and none is left. A line with its LF has at most `room` bytes: where `room`
    /// is 0 the end of the input alone is left to answer. The line that is answered, and it alone, counts as answered;
    /// the end of the input and a failure add nothing.
    fn ask(&mut self, view: &Scene<'_>, room: usize) -> Result<Answer, OperatorFailed>
        ensures answer { IfOk result (λ answer. answered self.new ≡ answered self.old ++ answer_bytes answer) }
        ensures failed { OnErr result (answered self.new ≡ answered self.old) }
        ensures cause { NotesFailure result (failure self.old) (failure self.new) };

    /// The next instruction takes a line, and the input ended before: the line is empty. This isn't told of the first
    /// such line, for which `ask` answered the end.
    fn miss(&mut self, view: &Scene<'_>) -> Result<(), OperatorFailed>
        ensures untold { answered self.new ≡ answered self.old }
        ensures cause { NotesFailure result (failure self.old) (failure self.new) };

    /// The run has ended, and nothing is saved yet.
    fn end(&mut self, view: &Scene<'_>) -> Result<(), OperatorFailed>
        ensures untold { answered self.new ≡ answered self.old }
        ensures cause { NotesFailure result (failure self.old) (failure self.new) };
}

/// Why a conversation broke off before its run ended.
#[derive(Clone, Copy)]
pub enum Broken {
    /// The operator failed, and not for want of memory.
    Operator,
    /// The journal failed.
    Journal,
    /// The operator answered a line that holds LF, or is longer than the room that was left.
    Line,
    /// Memory was refused, to the run or to the operator.
    Memory,
}

impl From<AllocError> for Broken {
    ghost from_gives = { λ _ e. e ≡ OfMemory };

    fn from(_: AllocError) -> Broken {
        Broken::Memory
    }
}

impl From<OperatorFailed> for Broken {
    ghost from_gives = { λ why e. e ≡ broken_by why };

    fn from(why: OperatorFailed) -> Broken {
        match why {
            OperatorFailed::Memory => Broken::Memory,
            OperatorFailed::Other => Broken::Operator,
        }
    }
}
