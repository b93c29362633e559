//! Calls of functions by the kinds of their arguments.

ghost use Rattle.std.specs.Prelude.{◌≡◌};
ghost use Rattle.code_items.specs.Kinds.{same_kinds};
ghost use Rattle.prg_values.specs.Readings.{scoped, FindsReading};
ghost use Rattle.prg_values.specs.Written as spec;

use crate::arguments::Kinds;
use crate::scope::Scope;
use code_items::Question;
use code_rules::kinds::kind_asked;
use prg_code::CompileFaultKind;
use prg_expr::Function;
use xvalue::{Arithmetic, DateFun, Fun, Kind, NumberFun, TextFun, TruthFun};

/// What a function by name does.
#[derive(Clone, Copy)]
pub enum Called {
    /// A function of its arguments.
    Function(Fun),
    /// A question to the selected area.
    Question(Question),
    /// The day of the run.
    Today,
    /// IIF, whose function is that of its second argument's kind.
    Choice,
}

fn of_texts(function: Function) -> Option<Fun>
    ensures { result ≡ spec.fun_of_texts function }
{
    match function {
        Function::Len => Some(Fun::ToNumber(NumberFun::Len)),
        Function::Substr => Some(Fun::ToText(TextFun::Substr)),
        Function::Left => Some(Fun::ToText(TextFun::Left)),
        Function::Right => Some(Fun::ToText(TextFun::Right)),
        Function::Trim => Some(Fun::ToText(TextFun::Trim)),
        Function::Ltrim => Some(Fun::ToText(TextFun::Ltrim)),
        Function::Upper => Some(Fun::ToText(TextFun::Upper)),
        Function::Lower => Some(Fun::ToText(TextFun::Lower)),
        Function::Space => Some(Fun::ToText(TextFun::Space)),
        Function::Replicate => Some(Fun::ToText(TextFun::Replicate)),
        Function::At => Some(Fun::ToNumber(NumberFun::At)),
        Function::Stuff => Some(Fun::ToText(TextFun::Stuff)),
        Function::Asc => Some(Fun::ToNumber(NumberFun::Asc)),
        Function::Chr => Some(Fun::ToText(TextFun::Chr)),
        Function::Val => Some(Fun::ToNumber(NumberFun::Val)),
        Function::Str => Some(Fun::ToText(TextFun::Str)),
        Function::IsAlpha => Some(Fun::ToTruth(TruthFun::IsAlpha)),
        Function::IsUpper => Some(Fun::ToTruth(TruthFun::IsUpper)),
        Function::IsLower => Some(Fun::ToTruth(TruthFun::IsLower)),
        _ => None,
    }
}

fn of_numbers_and_dates(function: Function) -> Option<Fun>
    ensures { result ≡ spec.of_numbers_and_dates function }
{
    match function {
        Function::Abs => Some(Fun::ToNumber(NumberFun::Abs)),
        Function::Int => Some(Fun::ToNumber(NumberFun::Int)),
        Function::Mod => Some(Fun::OfTwo(Arithmetic::Mod)),
        Function::Round => Some(Fun::OfTwo(Arithmetic::Round)),
        Function::Max => Some(Fun::OfTwo(Arithmetic::Max)),
        Function::Min => Some(Fun::OfTwo(Arithmetic::Min)),
        Function::Ctod => Some(Fun::ToDate(DateFun::Ctod)),
        Function::Dtoc => Some(Fun::ToText(TextFun::Dtoc)),
        Function::Day => Some(Fun::ToNumber(NumberFun::Day)),
        Function::Month => Some(Fun::ToNumber(NumberFun::Month)),
        Function::Year => Some(Fun::ToNumber(NumberFun::Year)),
        Function::Dow => Some(Fun::ToNumber(NumberFun::Dow)),
        Function::Cdow => Some(Fun::ToText(TextFun::Cdow)),
        Function::Cmonth => Some(Fun::ToText(TextFun::Cmonth)),
        _ => None,
    }
}

fn question(function: Function) -> Option<Question>
    ensures { result ≡ spec.question_of function }
{
    match function {
        Function::Recno => Some(Question::Recno),
        Function::Reccount => Some(Question::Reccount),
        Function::Eof => Some(Question::Eof),
        Function::Bof => Some(Question::Bof),
        Function::Found => Some(Question::Found),
        Function::Deleted => Some(Question::Deleted),
        _ => None,
    }
}

/// DATE, and IIF.
fn otherwise(function: Function) -> Called
    ensures { result ≡ spec.otherwise function }
{
    match function {
        Function::Date => Called::Today,
        _ => Called::Choice,
    }
}

/// What the function does.
pub fn meaning_of(function: Function) -> Called
    ensures { result ≡ spec.meaning function }
{
    if let Some(fun) = of_texts(function) {
        return Called::Function(fun);
    }
    if let Some(fun) = of_numbers_and_dates(function) {
        return Called::Function(fun);
    }
    if let Some(question) = question(function) {
        return Called::Question(question);
    }
    otherwise(function)
}

/// The function of IIF for what it chooses from.
fn choice_for(kind: Kind) -> Fun
    ensures { result ≡ spec.choice_for kind }
{
    match kind {
        Kind::Number => Fun::ToNumber(NumberFun::IifNumber),
        Kind::Text => Fun::ToText(TextFun::IifText),
        Kind::Date => Fun::ToDate(DateFun::IifDate),
        Kind::Logical => Fun::ToTruth(TruthFun::IifLogical),
    }
}

/// The function of IIF for arguments of these kinds: a truth value, and two values of one kind.
pub fn choice(kinds: &[Kind]) -> Option<Fun>
    ensures { result ≡ spec.choice kinds.now }
{
    let [Kind::Logical, one, other] = kinds else {
        return None;
    };
    if one.is(*other) {
        Some(choice_for(*one))
    } else {
        None
    }
}

/// The kinds of arguments with those that are left out.
fn completed(function: Function, kinds: &mut Kinds)
    ensures { kinds.new ≡ spec.completed function kinds.old }
{
    match function {
        Function::Substr if kinds.len() == 2 => kinds.push(Kind::Number),
        Function::Str if kinds.len() == 1 => {
            kinds.push(Kind::Number);
            kinds.push(Kind::Number);
        }
        Function::Str if kinds.len() == 2 => kinds.push(Kind::Number),
        _ => {}
    }
}

/// Whether both are the same kinds.
fn are_same(wanted: &[Kind], kinds: &[Kind]) -> bool
    ensures { result ≡ same_kinds wanted.now kinds.now }
{
    let mut rest = kinds;
    let mut wants = wanted;
    while let Some((want, later)) = wants.split_first() {
        let Some((kind, others)) = rest.split_first() else {
            return false;
        };
        if !want.is(*kind) {
            return false;
        }
        wants = later;
        rest = others;
    }
    rest.is_empty()
}

/// Whether an expression may ask this: in a filter only what a row that is tried can answer.
fn may_ask(in_filter: bool, question: Question) -> bool
    ensures { result ≡ spec.may_ask in_filter question }
{
    match question {
        Question::Recno | Question::Reccount | Question::Deleted => true,
        Question::Eof | Question::Bof | Question::Found => !in_filter,
    }
}

/// The kind of a question's answer: ClosedArea where the selected area isn't known to be open, Filter where a filter
/// may not ask it.
fn asked(scope: &Scope, question: Question) -> Result<Kind, CompileFaultKind>
    ensures { FindsReading result (spec.question_kind (scoped scope.now) question) }
{
    if scope.state.desk.selected_area().is_none() {
        return Err(CompileFaultKind::ClosedArea);
    }
    if may_ask(scope.in_filter, question) {
        Ok(kind_asked(question))
    } else {
        Err(CompileFaultKind::Filter)
    }
}

/// The kind that a function gives, if it takes arguments of these kinds, with those that are left out.
fn function_kind(function: Function, fun: Fun, kinds: &mut Kinds) -> Result<Kind, CompileFaultKind>
    ensures { FindsReading result (spec.function_kind function fun kinds.old) }
{
    completed(function, kinds);
    if are_same(fun.takes(), kinds.as_slice()) {
        Ok(fun.gives())
    } else {
        Err(CompileFaultKind::Kind)
    }
}

/// The kind of a call with arguments of these kinds.
pub fn call_kind(
    scope: &Scope,
    function: Function,
    kinds: &mut Kinds,
) -> Result<Kind, CompileFaultKind>
    ensures { FindsReading result (spec.called_kind (scoped scope.now) function (spec.meaning function) kinds.old) }
{
    match meaning_of(function) {
        Called::Function(fun) => function_kind(function, fun, kinds),
        Called::Question(question) if kinds.len() == 0 => asked(scope, question),
        Called::Today if kinds.len() == 0 => Ok(Kind::Date),
        Called::Question(_) | Called::Today => Err(CompileFaultKind::Kind),
        Called::Choice => match choice(kinds.as_slice()) {
            Some(fun) => Ok(fun.gives()),
            None => Err(CompileFaultKind::Kind),
        },
    }
}
