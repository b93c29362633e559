// Why a run isn't carried out, or its tables aren't saved.
#![tactic(auto)]

ghost use Rattle.std.specs.Prelude.{◌≡◌};
ghost use Rattle.run_commands.specs.Exits.{exit_of_run, name_told, refusal_told};

use file_commands::{Fault, Status};
use std::alloc::AllocError;
use std::fmt;
use table_files::FilesRefusal;
use xverify::FailedRule;

/// Why a run isn't carried out, or not all of its tables are saved. The code's file is the one that was asked for.
#[derive(Clone, Copy, PartialEq)]
pub enum RunRefusal {
    /// The code's file has this fault.
    File(Fault),
    /// The code isn't accepted.
    Rule(FailedRule),
    /// The device failed where the code's file was read.
    Disk,
    /// A table or an index wasn't loaded or saved.
    Tables(FilesRefusal),
    /// Memory was refused.
    Memory,
}

impl From<AllocError> for RunRefusal {
    ghost use Rattle.run_commands.specs.declared.refusal.RunRefusal.TheVariants.{Memory};

    ghost from_gives = { λ _ e. e ≡ Memory };

    fn from(_: AllocError) -> RunRefusal {
        RunRefusal::Memory
    }
}

impl From<FilesRefusal> for RunRefusal {
    ghost use Rattle.run_commands.specs.declared.refusal.RunRefusal.TheVariants.{Tables};

    ghost from_gives = { λ refusal e. e ≡ Tables refusal };

    fn from(refusal: FilesRefusal) -> RunRefusal {
        RunRefusal::Tables(refusal)
    }
}

/// A refusal as it is told, with the name of the code's file.
#[derive(Clone, Copy)]
pub struct ToldRefusal<'a> {
    refusal: &'a RunRefusal,
    name: &'a str,
}

impl RunRefusal {
    /// The refusal as it is told of a code's file of this name.
    pub fn told<'a>(&'a self, name: &'a str) -> ToldRefusal<'a>
        ensures refusal { refusal_told result ≡ self.now }
        ensures name { name_told result ≡ name.now }
    {
        ToldRefusal {
            refusal: self,
            name,
        }
    }

    /// How the program exits behind such a refusal.
    pub fn status(&self) -> Status
        ensures { result ≡ exit_of_run self.now }
    {
        match self {
            RunRefusal::File(_) | RunRefusal::Rule(_) => Status::Refused,
            RunRefusal::Disk => Status::Disk,
            RunRefusal::Tables(FilesRefusal::Refused { .. }) => Status::Refused,
            RunRefusal::Tables(FilesRefusal::Disk { .. }) => Status::Disk,
            RunRefusal::Tables(FilesRefusal::Memory) => Status::Memory,
            RunRefusal::Memory => Status::Memory,
        }
    }
}

impl fmt::Display for ToldRefusal<'_> {
    fn fmt<W: fmt::Write>(&self, f: &mut fmt::Formatter<W>) -> fmt::Result {
        let name = self.name;
        match self.refusal {
            RunRefusal::File(fault) => write!(f, "refused {name} {fault}"),
            RunRefusal::Rule(refused) => write!(f, "refused {name} {refused}"),
            RunRefusal::Disk => write!(f, "disk {name}"),
            RunRefusal::Tables(refusal) => write!(f, "{refusal}"),
            RunRefusal::Memory => f.write_str("memory"),
        }
    }
}
