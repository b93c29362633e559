//! How runs end.

ghost use Rattle.std.specs.Prelude.{◌≡◌, ◌<◌, ◌≤◌, ◌+◌};
ghost use Rattle.run_steps.specs.declared.ending.End.TheVariants.{Finished as IsFinished, Spent as IsSpent};
ghost use Rattle.run_steps.specs.Run.{stop_ending};

use crate::fault::FaultKind;

/// How a run ends.
#[derive(Clone, Copy, PartialEq, Eq, Debug)]
pub enum End {
    /// The code came to its end.
    Finished,
    /// The next step costs more than is left of the budget.
    Spent,
    /// The next step adds a record to this table, counted from 0, which holds as many as it may.
    Full(u16),
    /// The next step wants memory that was refused.
    NoMemory,
    /// The next step has a fault, of this kind, at this place.
    Fault(FaultKind, usize),
}

/// How a run ended, and what its steps cost together.
#[derive(Clone, Copy, PartialEq, Eq, Debug)]
pub struct Outcome {
    pub end: End,
    pub steps: u64,
}

/// Why an instruction was not carried out.
#[derive(Clone, Copy, PartialEq, Eq, Debug)]
pub enum Stop {
    /// It costs more than is left.
    Spent,
    /// The table, counted from 0, holds as many records as it may.
    Full(u16),
    /// It wants memory that was refused.
    NoMemory,
}

impl Stop {
    /// How a run ends that stops so.
    pub fn end(self) -> End
        ensures { result ≡ stop_ending self }
    {
        match self {
            Stop::Spent => End::Spent,
            Stop::Full(table) => End::Full(table),
            Stop::NoMemory => End::NoMemory,
        }
    }
}

/// How a run ends whose next instruction finishes it, behind steps of this cost: spent, where nothing is left of the
/// budget to pay for that instruction.
pub fn finishing(steps: u64, budget: u64) -> Outcome
    requires { steps ≤ budget }
    ensures spent { budget ≤ steps → result ≡ record { end = IsSpent; steps = steps } }
    ensures finished { steps < budget → result ≡ record { end = IsFinished; steps = steps + 1 } }
{
    if steps == budget {
        return Outcome {
            end: End::Spent,
            steps,
        };
    }
    Outcome {
        end: End::Finished,
        steps: steps + 1,
    }
}
