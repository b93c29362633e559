//! A command file as a tree.

ghost use Rattle.std.specs.Prelude.{◌≡◌};

use crate::command::Command;
use prg_expr::{Name, Text};

/// A command file that was read whole.
#[derive(Debug, Drop)]
pub struct Program {
    /// The name under which `DO` finds the file; empty until it is named.
    pub name: Text,
    /// The commands before the first `PROCEDURE`.
    pub main: Vec<Command>,
    /// The procedures in the order of the file. Two may have one name.
    pub procedures: Vec<Procedure>,
}

/// A procedure of a command file.
#[derive(Debug, Drop)]
pub struct Procedure {
    /// The line of `PROCEDURE`.
    pub line: usize,
    /// Its name in capitals.
    pub name: Name,
    /// Its commands.
    pub body: Vec<Command>,
}

impl Program {
    /// The same program under this name.
    pub fn named(self, name: Text) -> Program
        ensures name { result.name ≡ name }
        ensures main { result.main ≡ self.main }
        ensures procedures { result.procedures ≡ self.procedures }
    {
        Program {
            name,
            main: self.main,
            procedures: self.procedures,
        }
    }
}
