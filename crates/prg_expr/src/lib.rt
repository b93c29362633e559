//! The words of a line of a command file, and the expressions that they spell.
#![tactic(auto)]

mod fault;
mod function;
mod lexer;
mod names;
mod parser;
mod reading;
mod token;
mod tree;

pub use fault::{
    FormFault, MOST_BYTES, MOST_WORDS, ParseFault, ParseFaultKind, ParseRefusal, least,
    length_fault,
};
pub use function::{Function, one_function};
pub use lexer::{lines_are_cut, one_line, words};
pub use names::{is_word, name_of};
pub use parser::expression;
pub use reading::{expr, expressions_are_read, one_tree};
pub use token::{Line, Token};
pub use tree::{
    AliasedName, BinaryOperator, Expr, Literal, MOST_LETTERS, MOST_TEXT, Name, Prefix, Text,
};
