//! The parser of command files: from a file's bytes to the commands of its main part and of its procedures.
#![tactic(auto)]

mod blocks;
mod builder;
mod command;
mod half_read;
mod judging;
mod lines;
mod listing;
mod parsing;
mod program;

pub use crate::command::{Branch, Case, Command, Form};
pub use crate::parsing::{line_faults, one_program, parse};
pub use crate::program::{Procedure, Program};
pub use prg_expr::{
    BinaryOperator, Expr, Function, Name, ParseFault, ParseFaultKind, ParseRefusal, Prefix, Text,
    expr,
};
pub use prg_line::{Move, Replacement, Selected, Statement, Toggle, one_saying};
