//! Commands as trees.

use prg_expr::Expr;
use prg_line::Statement;

/// A command with its line in the file, from 1; of a joined line its first one.
#[cycle(commands)]
#[derive(Debug, Drop)]
pub struct Command {
    /// The line of the command; of a block the line that opens it.
    pub line: usize,
    /// What the command says.
    pub form: Form,
}

/// What a command says.
#[cycle(commands)]
#[derive(Debug, Drop)]
pub enum Form {
    /// A command of one line.
    Statement(Statement),
    /// `IF condition`, up to the line of its `ENDIF`.
    If {
        condition: Expr,
        then: Vec<Command>,
        otherwise: Option<Branch>,
        end: usize,
    },
    /// `DO CASE`, up to the line of its `ENDCASE`.
    DoCase {
        cases: Vec<Case>,
        otherwise: Option<Branch>,
        end: usize,
    },
    /// `DO WHILE condition`, up to the line of its `ENDDO`.
    DoWhile {
        condition: Expr,
        body: Vec<Command>,
        end: usize,
    },
    /// `SCAN [FOR condition]`, up to the line of its `ENDSCAN`.
    Scan {
        condition: Option<Expr>,
        body: Vec<Command>,
        end: usize,
    },
}

/// A `CASE` of a `DO CASE`.
#[cycle(commands)]
#[derive(Debug, Drop)]
pub struct Case {
    /// The line of the `CASE`.
    pub line: usize,
    /// When the case is taken.
    pub condition: Expr,
    /// Its commands.
    pub body: Vec<Command>,
}

/// The `ELSE` of an `IF`, or the `OTHERWISE` of a `DO CASE`.
#[cycle(commands)]
#[derive(Debug, Drop)]
pub struct Branch {
    /// The line of the `ELSE` or `OTHERWISE`.
    pub line: usize,
    /// Its commands.
    pub body: Vec<Command>,
}
