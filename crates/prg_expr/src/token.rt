//! The words of a line.

use crate::fault::ParseFaultKind;
use crate::tree::BinaryOperator;

/// A word of a line, which borrows the bytes of a name or a text.
#[derive(Clone, Copy, Debug)]
pub enum Token<'a> {
    /// The digits as written, with the point if there is one.
    Number(&'a [u8]),
    /// The bytes between the marks; more than 254 only where the line's fault is TooLong or a lesser one.
    Text(&'a [u8]),
    Logical(bool),
    /// As written; more than ten letters only where the line's fault is TooLong or a lesser one.
    Name(&'a [u8]),
    Not,
    Operator(BinaryOperator),
    /// `->`
    Arrow,
    Open,
    Close,
    Comma,
    /// `?`
    Show,
    /// `??`
    ShowOn,
    /// `@`
    At,
    /// A point that begins neither a number nor a word between points.
    Point,
    /// A `&` that begins no comment.
    Macro,
    /// A byte that begins no word.
    Faulty,
}

/// The words of a line and the least of their faults.
#[derive(Debug, Drop)]
pub struct Line<'a> {
    /// The words in order, also the faulty ones, up to a comment.
    pub words: Vec<Token<'a>>,
    /// Character, Text, Number, TooLong or Macro, the first of these that a word has.
    pub fault: Option<ParseFaultKind>,
}
