// How a run ended, as it is told.
#![tactic(auto)]

ghost use Rattle.std.specs.Prelude.{◌≡◌, slice_get};
ghost use Rattle.run_commands.specs.Endings.{name_of_table, is_saved, TellsHow};
ghost use Rattle.run_commands.specs.Exits.{exit_of_end};

use file_commands::Status;
use run_steps::{End, FaultKind, Outcome};
use shape::{Name, Shape, copy_of_name};
use std::fmt;

/// How a run ended.
#[derive(Drop, PartialEq)]
pub enum How {
    /// The code came to its end.
    Finished,
    /// The next step costs more than was left of the budget.
    Spent,
    /// The next step adds a record to the table of this name, which holds as many as it may.
    Full(Name),
    /// The next step wants memory that was refused.
    NoMemory,
    /// The next step has a fault, of this kind, at this place. Accepted codes have none.
    Fault(FaultKind, usize),
}

/// How a run ended, and what its steps cost together.
#[derive(Drop, PartialEq)]
pub struct Ended {
    pub how: How,
    pub steps: u64,
}

fn name_of(shape: &Shape, table: u16) -> Name
    ensures { result.items ≡ name_of_table (slice_get shape.now.tables table) }
{
    match shape.tables.as_slice().get(usize::from(table)) {
        Some(declared) => copy_of_name(&declared.name),
        None => Name::new(),
    }
}

/// How a run of a code with this shape ended, as it is told.
pub(crate) fn ended_of(outcome: Outcome, shape: &Shape) -> Ended
    ensures how { TellsHow shape.now outcome.end result.how }
    ensures steps { result.steps ≡ outcome.steps }
{
    let how = match outcome.end {
        End::Finished => How::Finished,
        End::Spent => How::Spent,
        End::Full(table) => How::Full(name_of(shape, table)),
        End::NoMemory => How::NoMemory,
        End::Fault(kind, at) => How::Fault(kind, at),
    };
    Ended {
        how,
        steps: outcome.steps,
    }
}

impl Ended {
    /// Whether the tables of a run that ended so are saved: those of each run, or only those of a finished one.
    pub fn is_saved(&self, only_finished: bool) -> bool
        ensures { result ≡ is_saved only_finished self.now.how }
    {
        match self.how {
            How::Finished => true,
            _ => !only_finished,
        }
    }

    /// How the program exits behind such a run.
    pub fn status(&self) -> Status
        ensures { result ≡ exit_of_end self.now.how }
    {
        match self.how {
            How::Finished => Status::Done,
            How::Spent => Status::Spent,
            How::Full(_) => Status::Full,
            How::NoMemory => Status::Memory,
            How::Fault(_, _) => Status::Fault,
        }
    }
}

fn word_of(kind: FaultKind) -> &'static str {
    match kind {
        FaultKind::WrongKind => "WrongKind",
        FaultKind::Unset => "Unset",
        FaultKind::ClosedArea => "ClosedArea",
        FaultKind::EmptyStack => "EmptyStack",
        FaultKind::StackOver => "StackOver",
        FaultKind::BadJump => "BadJump",
        FaultKind::NoOrder => "NoOrder",
        FaultKind::OpenTwice => "OpenTwice",
        FaultKind::DeepCall => "DeepCall",
        FaultKind::BadField => "BadField",
        FaultKind::BadFilter => "BadFilter",
    }
}

pub(crate) fn put_name<W: fmt::Write>(name: &Name, f: &mut fmt::Formatter<W>) -> fmt::Result {
    for byte in name.as_slice() {
        f.write_char(char::from(*byte))?;
    }
    Ok(())
}

impl fmt::Display for Ended {
    fn fmt<W: fmt::Write>(&self, f: &mut fmt::Formatter<W>) -> fmt::Result {
        let steps = self.steps;
        match &self.how {
            How::Finished => write!(f, "finished {steps}"),
            How::Spent => write!(f, "spent {steps}"),
            How::Full(name) => {
                f.write_str("full ")?;
                put_name(name, f)?;
                write!(f, " {steps}")
            }
            How::NoMemory => write!(f, "memory {steps}"),
            How::Fault(kind, at) => {
                let word = word_of(*kind);
                write!(f, "fault {word} {at} {steps}")
            }
        }
    }
}
