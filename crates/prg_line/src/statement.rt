//! Commands of one line, and what a line says.

use prg_expr::{Expr, Name};

/// A command of one line, a case a form.
#[derive(Debug, Drop)]
pub enum Statement {
    /// `? [list]`: a new line, then the values.
    Show {
        values: Vec<Expr>,
    },
    /// `?? list`: the values, where the cursor stands.
    ShowOn {
        values: Vec<Expr>,
    },
    /// `@ row,column SAY value`.
    Say {
        row: Expr,
        column: Expr,
        value: Expr,
    },
    /// `@ row,column GET variable`.
    Get {
        row: Expr,
        column: Expr,
        variable: Name,
    },
    /// `@ row,column SAY value GET variable`.
    SayGet {
        row: Expr,
        column: Expr,
        value: Expr,
        variable: Name,
    },
    /// `READ`.
    Read,
    /// `ACCEPT [prompt] TO variable`.
    Accept {
        prompt: Option<Expr>,
        variable: Name,
    },
    /// `WAIT [prompt] [TO variable]`.
    Wait {
        prompt: Option<Expr>,
        variable: Option<Name>,
    },
    /// `CLEAR`.
    Clear,
    /// `variable = value`.
    Assign {
        variable: Name,
        value: Expr,
    },
    /// `STORE value TO variables`.
    Store {
        value: Expr,
        variables: Vec<Name>,
    },
    /// `RELEASE variables`.
    Release {
        variables: Vec<Name>,
    },
    /// `PRIVATE variables`.
    Private {
        variables: Vec<Name>,
    },
    /// `PARAMETERS variables`.
    Parameters {
        variables: Vec<Name>,
    },
    /// `LOOP`.
    Loop,
    /// `EXIT`.
    Exit,
    /// `DO procedure [WITH arguments]`.
    Do {
        procedure: Name,
        arguments: Vec<Expr>,
    },
    /// `RETURN`.
    Return,
    /// `QUIT`.
    Quit,
    /// `CANCEL`.
    Cancel,
    /// `USE`: closes the selected area.
    Close,
    /// `USE table [INDEX indexes]`.
    Use {
        table: Name,
        indexes: Vec<Name>,
    },
    /// `SELECT area`.
    Select {
        area: Selected,
    },
    /// `CLOSE ALL` and `CLOSE DATABASES`.
    CloseAll,
    /// `SET ORDER TO order`.
    SetOrder {
        order: u16,
    },
    /// `SET FILTER TO [condition]`.
    SetFilter {
        condition: Option<Expr>,
    },
    /// `SET EXACT`, `SET DELETED` or `SET CENTURY`, `ON` or `OFF`.
    Set {
        setting: Toggle,
        on: bool,
    },
    /// `GO` or `GOTO`.
    Go {
        to: Move,
    },
    /// `SKIP [rows]`.
    Skip {
        rows: Option<Expr>,
    },
    /// `SEEK key`.
    Seek {
        key: Expr,
    },
    /// `APPEND BLANK`.
    AppendBlank,
    /// `REPLACE field WITH value, ..`.
    Replace {
        replacements: Vec<Replacement>,
    },
    /// `DELETE`.
    Delete,
    /// `RECALL`.
    Recall,
    /// `PACK`.
    Pack,
    /// `ZAP`.
    Zap,
    /// `REINDEX`.
    Reindex,
    /// `INDEX ON key TO index`.
    IndexOn {
        key: Expr,
        index: Name,
    },
}

/// An area as `SELECT` names it.
#[derive(Debug, Drop)]
pub enum Selected {
    /// By its number, 1 to 10.
    Number(u8),
    /// By its letter, or by the name of the table that it holds.
    Name(Name),
}

/// What `SET` switches on and off.
#[derive(Clone, Copy, Debug, PartialEq)]
pub enum Toggle {
    /// Texts are equal only whole.
    Exact,
    /// Marked records are hidden.
    Deleted,
    /// Years show with four digits.
    Century,
}

/// Where `GO` leads.
#[derive(Debug, Drop)]
pub enum Move {
    /// To the first visible record.
    Top,
    /// To the last visible record.
    Bottom,
    /// To the record of this number.
    Record(Expr),
}

/// One `field WITH value` of a `REPLACE`.
#[derive(Debug, Drop)]
pub struct Replacement {
    /// The field of the selected area's table.
    pub field: Name,
    /// Its new value.
    pub value: Expr,
}

/// What one line says: a whole command, or a line of a block.
#[derive(Debug, Drop)]
pub enum Sentence {
    /// A line that says nothing.
    Nothing,
    /// A command of one line.
    Whole(Statement),
    /// `IF condition`.
    If(Expr),
    /// `ELSE`.
    Else,
    /// `DO CASE`.
    DoCase,
    /// `CASE condition`.
    Case(Expr),
    /// `OTHERWISE`.
    Otherwise,
    /// `DO WHILE condition`.
    DoWhile(Expr),
    /// `SCAN [FOR condition]`.
    Scan(Option<Expr>),
    /// `ENDIF`.
    EndIf,
    /// `ENDCASE`.
    EndCase,
    /// `ENDDO`.
    EndDo,
    /// `ENDSCAN`.
    EndScan,
    /// `PROCEDURE name`.
    Procedure(Name),
}
