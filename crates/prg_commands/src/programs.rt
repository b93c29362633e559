//! The procedures of command files.

ghost use Rattle.std.specs.Prelude.{◌≡◌, map, option_map};
ghost use Rattle.prg_line.specs.Act.{act_of, letters_of};
ghost use Rattle.prg_parser.specs.Commands.{command_of};
ghost use Rattle.prg_commands.specs.Programs.{commands_in, last_line_in, AreParameters};
ghost use Rattle.prg_commands.specs.Programs.{parameters_said as said, parameters_named as named};

use prg_line::Statement;
use prg_parser::{Command, Form, Name, Program};

/// A procedure by the number of its command file, and by its own number there, each from 0; or the part of the file
/// before its first PROCEDURE.
#[derive(Clone, Copy, PartialEq, Eq)]
pub struct Target {
    pub file: usize,
    pub procedure: Option<usize>,
}

impl Target {
    /// Its commands in these files; none where it isn't there.
    pub fn commands(self, programs: &[Program]) -> &[Command]
        ensures { result.now ≡ commands_in programs.now self }
    {
        match programs.get(self.file) {
            Some(program) => match self.procedure {
                Some(number) => match program.procedures.get(number) {
                    Some(procedure) => procedure.body.as_slice(),
                    None => &[],
                },
                None => program.main.as_slice(),
            },
            None => &[],
        }
    }

    /// The line of its last command in these files; of one without commands, that of its PROCEDURE, or the file's
    /// first.
    pub fn last_line(self, programs: &[Program]) -> usize
        ensures { result ≡ last_line_in programs.now self }
    {
        if let Some(command) = self.commands(programs).last() {
            return command.line;
        }
        let Some(program) = programs.get(self.file) else {
            return 1;
        };
        match self.procedure {
            Some(number) => match program.procedures.get(number) {
                Some(procedure) => procedure.line,
                None => 1,
            },
            None => 1,
        }
    }
}

/// The parameters that PARAMETERS names; None of another command.
fn parameters_said(statement: &Statement) -> Option<&[Name]>
    ensures { option_map (λ names. map letters_of names.now) result ≡ said (act_of statement.now) }
{
    match statement {
        Statement::Parameters { variables } => Some(variables.as_slice()),
        _ => None,
    }
}

/// The parameters that the command names, if it is PARAMETERS.
#[tactic(auto, using(crate::proofs::NamedBy::forms))]
fn parameters_named(command: &Command) -> Option<&[Name]>
    ensures { option_map (λ names. map letters_of names.now) result ≡ named (command_of command.now) }
{
    match &command.form {
        Form::Statement(statement) => parameters_said(statement),
        _ => None,
    }
}

/// The parameters that a procedure's first command names, and the commands behind it.
pub fn parameters(commands: &[Command]) -> (&[Name], &[Command])
    ensures { AreParameters commands.now result.0.now result.1.now }
{
    let Some((first, others)) = commands.split_first() else {
        return (&[], commands);
    };
    match parameters_named(first) {
        Some(names) => (names, others),
        None => (&[], commands),
    }
}
