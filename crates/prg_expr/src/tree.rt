//! The tree of an expression.

ghost use Rattle.std.specs.Prelude.{◌≡◌, ◌≤◌, length, take, IfOk};

use crate::function::Function;
use crate::names::front;
use arrayvec::ArrayVec;
use fixed_num::Num;
use std::alloc::{AllocError, Global};
use std::marker::Model;

/// The most letters of a name.
pub const MOST_LETTERS: usize = 10;

/// The most bytes of a text.
pub const MOST_TEXT: usize = 254;

/// A name in capitals: a letter, then letters, digits and underscores, at most ten in all.
pub type Name = ArrayVec<u8, 10>;

/// A text: at most 254 bytes, of any values.
pub type Text = ArrayVec<u8, 254>;

/// A text of an expression: at most 254 bytes, of any values, in a row of its own length; seen as their list.
#[derive(Debug, Drop)]
pub struct Literal {
    bytes: Vec<u8>,
}

impl Model for Literal {
    ghost use Rattle.std.specs.Prelude.{List, ℕ, ◌≤◌, length};

    ghost Value = { List ℕ };

    ghost view = { λ t. t.bytes.items };

    ghost invariant = { λ t. length t.bytes.items ≤ 254 };
}

impl Literal {
    /// The text of these bytes, 254 of them where there are more.
    pub(crate) fn of(alloc: Global, bytes: &[u8]) -> Result<Literal, AllocError>
        ensures { IfOk result (λ text. text ≡ take 254 bytes.now) }
    {
        Ok(Literal {
            bytes: Vec::from_slice(alloc, front(bytes, MOST_TEXT))?,
        })
    }

    /// Its bytes.
    pub fn as_slice(&self) -> &[u8]
        ensures same { result.now ≡ self.now }
        ensures within { length result.now ≤ 254 }
    {
        self.bytes.as_slice()
    }
}

/// A name behind an alias.
#[derive(Debug, Drop)]
pub struct AliasedName {
    /// The work area, or `M` for a variable.
    pub alias: Name,
    /// The name behind the arrow.
    pub name: Name,
}

/// An operator between two operands.
#[derive(Clone, Copy, Debug)]
pub enum BinaryOperator {
    /// `.OR.`
    Or,
    /// `.AND.`
    And,
    /// `=`
    Equal,
    /// `<>` or `#`
    NotEqual,
    /// `<`
    Less,
    /// `>`
    Greater,
    /// `<=`
    AtMost,
    /// `>=`
    AtLeast,
    /// `$`: the left text stands in the right one
    Contains,
    /// `+`
    Plus,
    /// `-`
    Minus,
    /// `*`
    Times,
    /// `/`
    Over,
}

/// What stands before its one operand.
#[derive(Clone, Copy, Debug)]
pub enum Prefix {
    /// `.NOT.`
    Not,
    /// The sign `-`.
    Negative,
    /// The sign `+`.
    Positive,
}

/// An expression. Parentheses are kept, since some commands tell `(X)` from `X`.
#[derive(Debug, Drop)]
pub enum Expr {
    Number(Num),
    Text(Literal),
    Logical(bool),
    /// A field of the selected area, or a variable.
    Name(Name),
    /// `alias->name`, and `M->name` for a variable.
    Qualified(Box<AliasedName>),
    /// A function with as many arguments as it takes.
    Call(Function, Vec<Expr>),
    /// `( expression )`
    Parentheses(Box<Expr>),
    Prefixed(Prefix, Box<Expr>),
    Binary(BinaryOperator, Box<Expr>, Box<Expr>),
}
