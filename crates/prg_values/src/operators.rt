//! Operators by the kinds of their operands.

ghost use Rattle.std.specs.Prelude.{◌≡◌};
ghost use Rattle.prg_values.specs.Operators as spec;

use prg_expr::{BinaryOperator, Prefix};
use xvalue::{Arithmetic, DateFun, Fun, Kind, NumberFun, NumberOrder, TextFun, TruthFun};

/// What an operator does: the function, whether its truth value is turned, and whether the right operand comes first.
#[derive(Clone, Copy)]
pub struct OperatorMeaning {
    pub fun: Fun,
    pub negated: bool,
    pub swapped: bool,
}

fn plain(fun: Fun) -> OperatorMeaning
    ensures { result ≡ spec.plain fun }
{
    OperatorMeaning {
        fun,
        negated: false,
        swapped: false,
    }
}

fn negated(fun: Fun) -> OperatorMeaning
    ensures { result ≡ spec.denied fun }
{
    OperatorMeaning {
        fun,
        negated: true,
        swapped: false,
    }
}

fn equality(kind: Kind) -> Option<Fun>
    ensures { result ≡ spec.equality kind }
{
    match kind {
        Kind::Number => Some(Fun::Compares(NumberOrder::NumberEq)),
        Kind::Text => Some(Fun::ToTruth(TruthFun::TextEq)),
        Kind::Date => Some(Fun::ToTruth(TruthFun::DateEq)),
        Kind::Logical => None,
    }
}

fn less(kind: Kind) -> Option<Fun>
    ensures { result ≡ spec.less kind }
{
    match kind {
        Kind::Number => Some(Fun::Compares(NumberOrder::NumberLess)),
        Kind::Text => Some(Fun::ToTruth(TruthFun::TextLess)),
        Kind::Date => Some(Fun::ToTruth(TruthFun::DateLess)),
        Kind::Logical => None,
    }
}

fn greater(kind: Kind) -> Option<Fun>
    ensures { result ≡ spec.greater kind }
{
    match kind {
        Kind::Number => Some(Fun::Compares(NumberOrder::NumberGreater)),
        Kind::Text => Some(Fun::ToTruth(TruthFun::TextGreater)),
        Kind::Date => Some(Fun::ToTruth(TruthFun::DateGreater)),
        Kind::Logical => None,
    }
}

fn plain_if(fun: Option<Fun>) -> Option<OperatorMeaning>
    ensures { result ≡ spec.operation_if_some spec.plain fun }
{
    match fun {
        Some(fun) => Some(plain(fun)),
        None => None,
    }
}

fn negated_if(fun: Option<Fun>) -> Option<OperatorMeaning>
    ensures { result ≡ spec.operation_if_some spec.denied fun }
{
    match fun {
        Some(fun) => Some(negated(fun)),
        None => None,
    }
}

/// What a comparison does between values of this kind; none of another operator.
fn comparison(operator: BinaryOperator, kind: Kind) -> Option<OperatorMeaning>
    ensures { result ≡ spec.comparison operator kind }
{
    match operator {
        BinaryOperator::Equal => plain_if(equality(kind)),
        BinaryOperator::NotEqual => negated_if(equality(kind)),
        BinaryOperator::Less => plain_if(less(kind)),
        BinaryOperator::Greater => plain_if(greater(kind)),
        BinaryOperator::AtMost => negated_if(greater(kind)),
        BinaryOperator::AtLeast => negated_if(less(kind)),
        _ => None,
    }
}

fn compared(operator: BinaryOperator, left: Kind, right: Kind) -> Option<OperatorMeaning>
    ensures { result ≡ spec.compared_kinds operator left right }
{
    if left.is(right) {
        comparison(operator, left)
    } else {
        None
    }
}

fn added(left: Kind, right: Kind) -> Option<OperatorMeaning>
    ensures { result ≡ spec.added left right }
{
    match (left, right) {
        (Kind::Number, Kind::Number) => Some(plain(Fun::OfTwo(Arithmetic::Add))),
        (Kind::Text, Kind::Text) => Some(plain(Fun::ToText(TextFun::Join))),
        (Kind::Date, Kind::Number) => Some(plain(Fun::ToDate(DateFun::DateAdd))),
        (Kind::Number, Kind::Date) => Some(OperatorMeaning {
            fun: Fun::ToDate(DateFun::DateAdd),
            negated: false,
            swapped: true,
        }),
        _ => None,
    }
}

fn subtracted(left: Kind, right: Kind) -> Option<OperatorMeaning>
    ensures { result ≡ spec.subtracted left right }
{
    match (left, right) {
        (Kind::Number, Kind::Number) => Some(plain(Fun::OfTwo(Arithmetic::Sub))),
        (Kind::Text, Kind::Text) => Some(plain(Fun::ToText(TextFun::JoinMoved))),
        (Kind::Date, Kind::Number) => Some(plain(Fun::ToDate(DateFun::DateSub))),
        (Kind::Date, Kind::Date) => Some(plain(Fun::ToNumber(NumberFun::DateDiff))),
        _ => None,
    }
}

/// The function where both operands are of this kind.
fn of_both(fun: Fun, kind: Kind, left: Kind, right: Kind) -> Option<OperatorMeaning>
    ensures { result ≡ spec.of_both fun kind left right }
{
    if left.is(kind) && right.is(kind) {
        Some(plain(fun))
    } else {
        None
    }
}

/// What the operator does between operands of these kinds; none where it takes other kinds.
pub fn operated(operator: BinaryOperator, left: Kind, right: Kind) -> Option<OperatorMeaning>
    ensures { result ≡ spec.operated operator left right }
{
    match operator {
        BinaryOperator::Or => of_both(Fun::ToTruth(TruthFun::Or), Kind::Logical, left, right),
        BinaryOperator::And => of_both(Fun::ToTruth(TruthFun::And), Kind::Logical, left, right),
        BinaryOperator::Contains => of_both(Fun::ToTruth(TruthFun::In), Kind::Text, left, right),
        BinaryOperator::Times => of_both(Fun::OfTwo(Arithmetic::Mul), Kind::Number, left, right),
        BinaryOperator::Over => of_both(Fun::OfTwo(Arithmetic::Div), Kind::Number, left, right),
        BinaryOperator::Plus => added(left, right),
        BinaryOperator::Minus => subtracted(left, right),
        _ => compared(operator, left, right),
    }
}

/// The kind that an operand of the prefix has, and so the whole.
pub fn prefix_kind(prefix: Prefix) -> Kind
    ensures { result ≡ spec.prefix_kind prefix }
{
    match prefix {
        Prefix::Not => Kind::Logical,
        Prefix::Negative | Prefix::Positive => Kind::Number,
    }
}

/// The function of a prefix; a plus sign has none.
pub fn prefix_fun(prefix: Prefix) -> Option<Fun>
    ensures { result ≡ spec.prefix_fun prefix }
{
    match prefix {
        Prefix::Not => Some(Fun::ToTruth(TruthFun::Not)),
        Prefix::Negative => Some(Fun::ToNumber(NumberFun::Neg)),
        Prefix::Positive => None,
    }
}
