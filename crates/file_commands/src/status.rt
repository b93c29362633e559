//! Exit statuses.

ghost use Rattle.std.specs.Prelude.{◌≡◌};
ghost use Rattle.file_commands.specs.Refusals.{status_of};

use crate::refusal::Refusal;

/// How the program exits.
#[derive(Clone, Copy, PartialEq, Eq, Debug)]
pub enum Status {
    /// Finished, accepted or written.
    Done = 0,
    /// The words of the command line.
    Words = 1,
    /// A file was refused.
    Refused = 2,
    /// The budget was spent.
    Spent = 3,
    /// A table holds as many records as it may.
    Full = 4,
    /// Memory was refused.
    Memory = 5,
    /// The device or standard output failed.
    Disk = 6,
    /// The checking machine met a fault.
    Fault = 7,
}

/// The status of a command that wasn't carried out.
pub fn of_refusal(refusal: &Refusal<'_>) -> Status
    ensures { result ≡ status_of refusal.now }
{
    match refusal {
        Refusal::Refused { .. } => Status::Refused,
        Refusal::Disk { .. } => Status::Disk,
        Refusal::Memory => Status::Memory,
    }
}
