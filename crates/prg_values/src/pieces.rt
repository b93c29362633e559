//! The pieces of an expression's code, along its tree.

ghost use Rattle.std.specs.Prelude.{◌≡◌, [], ◌∷◌, ◌++◌, Option, Some, IfOk, OnOk, length};
ghost use Rattle.xvalue.specs.declared.value.Value.TheVariants as constant;
ghost use Rattle.prg_expr.specs.Tree.{tree_of, trees_of};
ghost use Rattle.prg_values.specs.declared.scope.Reading.{Reading as TheReading};
ghost use Rattle.prg_values.specs.Operators.{prefix_fun as prefix_fun_of};
ghost use Rattle.prg_values.specs.Readings.{scoped, FindsReading};
ghost use Rattle.prg_values.specs.Written as spec;

use crate::calls::{Called, choice, meaning_of};
use crate::kinds::{kind_of, kinds_of};
use crate::operators::{OperatorMeaning, operated, prefix_fun};
use crate::scope::{Reading, Scope, read_name, read_qualified};
use code_items::{Instr, RecordInstr, ValueInstr};
use fixed_num::Num;
use prg_code::{CompileError, CompileFaultKind};
use prg_expr::{AliasedName, Expr, Function, Literal};
use std::alloc::Global;
use xvalue::{Fun, TruthFun, Value, text_from};

/// A piece of an expression's code.
#[derive(Drop)]
pub enum Piece {
    /// What puts the constant on the stack.
    Constant(Value),
    /// Another instruction.
    Does(Instr),
}

/// The value that a text of an expression is.
fn text_value(text: &Literal) -> Value
    ensures { result ≡ constant.Text (record { items = text.now }) }
{
    Value::Text(text_from(text.as_slice()))
}

fn put(code: &mut Vec<Piece>, piece: Piece) -> Result<(), CompileError>
    ensures { OnOk result (code.new.items ≡ code.old.items ++ piece ∷ []) }
{
    code.push(piece)?;
    Ok(())
}

fn put_whole(code: &mut Vec<Piece>, whole: u32) -> Result<(), CompileError>
    ensures { OnOk result (code.new.items ≡ code.old.items ++ spec.Constant (spec.whole_as_value whole) ∷ []) }
{
    put(code, Piece::Constant(Value::Number(Num::from(whole))))
}

fn put_function(code: &mut Vec<Piece>, fun: Fun) -> Result<(), CompileError>
    ensures { OnOk result (code.new.items ≡ code.old.items ++ spec.calls fun ∷ []) }
{
    put(code, Piece::Does(Instr::Values(ValueInstr::Function(fun))))
}

fn put_reading(
    code: &mut Vec<Piece>,
    reading: Result<Reading, CompileFaultKind>,
) -> Result<(), CompileError>
    ensures { OnOk result ((found : Option TheReading) → FindsReading reading found
        → code.new.items ≡ code.old.items ++ spec.reading_pieces found) }
{
    put(code, Piece::Does(reading?.instr))
}

/// The values of arguments that are left out.
fn put_defaults(code: &mut Vec<Piece>, function: Function, count: usize) -> Result<(), CompileError>
    ensures { OnOk result (code.new.items ≡ code.old.items ++ spec.constants (spec.defaults function count)) }
{
    match function {
        Function::Substr if count == 2 => put_whole(code, 254),
        Function::Str if count == 1 => {
            put_whole(code, 10)?;
            put_whole(code, 0)
        }
        Function::Str if count == 2 => put_whole(code, 0),
        _ => Ok(()),
    }
}

/// The function itself, behind its arguments.
fn put_called(
    code: &mut Vec<Piece>,
    function: Function,
    choice: Option<Fun>,
) -> Result<(), CompileError>
    ensures { OnOk result (code.new.items ≡ code.old.items ++ spec.call_pieces (spec.meaning function) choice) }
{
    match meaning_of(function) {
        Called::Function(fun) => put_function(code, fun),
        Called::Question(question) => put(
            code,
            Piece::Does(Instr::Records(RecordInstr::Ask(question))),
        ),
        Called::Today => put(code, Piece::Does(Instr::Values(ValueInstr::Today))),
        Called::Choice => match choice {
            Some(fun) => put_function(code, fun),
            None => Err(CompileError::Fault(CompileFaultKind::Kind)),
        },
    }
}

/// A denial, if there is one.
fn put_denial(code: &mut Vec<Piece>, negated: bool) -> Result<(), CompileError>
    ensures { OnOk result (code.new.items ≡ code.old.items ++ spec.denial negated) }
{
    if negated {
        put_function(code, Fun::ToTruth(TruthFun::Not))
    } else {
        Ok(())
    }
}

/// The function of an operator, behind its operands.
fn put_operation(code: &mut Vec<Piece>, operation: OperatorMeaning) -> Result<(), CompileError>
    ensures { OnOk result (code.new.items ≡ code.old.items ++ spec.operation_pieces operation) }
{
    put_function(code, operation.fun)?;
    put_denial(code, operation.negated)
}

fn put_prefix(code: &mut Vec<Piece>, fun: Option<Fun>) -> Result<(), CompileError>
    ensures { OnOk result (code.new.items ≡ code.old.items ++ spec.prefix_pieces fun) }
{
    match fun {
        Some(fun) => put_function(code, fun),
        None => Ok(()),
    }
}

/// What an operator does between these operands.
fn operation_of(
    scope: &Scope,
    operator: prg_expr::BinaryOperator,
    left: &Expr,
    right: &Expr,
) -> Result<OperatorMeaning, CompileError>
    ensures { IfOk result (λ operation. spec.operation_in operator (spec.kind_in (scoped scope.now) (tree_of left.now))
        (spec.kind_in (scoped scope.now) (tree_of right.now)) ≡ Some operation) }
{
    let left = kind_of(scope, left)?;
    let right = kind_of(scope, right)?;
    match operated(operator, left, right) {
        Some(operation) => Ok(operation),
        None => Err(CompileError::Fault(CompileFaultKind::Kind)),
    }
}

/// The function of IIF with these arguments, if the function is IIF.
fn choice_of(
    scope: &Scope,
    function: Function,
    arguments: &[Expr],
) -> Result<Option<Fun>, CompileError>
    ensures { IfOk result (λ found. spec.call_pieces (spec.meaning function) found
        ≡ spec.call_pieces (spec.meaning function)
        (spec.chosen (spec.kinds_in (scoped scope.now) (trees_of arguments.now)))) }
{
    match meaning_of(function) {
        Called::Choice => {
            let kinds = kinds_of(scope, arguments)?;
            Ok(choice(kinds.as_slice()))
        }
        _ => Ok(None),
    }
}

#[cycle(emit)]
fn emit_all(code: &mut Vec<Piece>, scope: &Scope, es: &[Expr]) -> Result<(), CompileError>
    ensures { OnOk result (code.new.items ≡ code.old.items ++ spec.all_pieces (scoped scope.now) (trees_of es.now)) }
{
    for e in es {
        emit(code, scope, e)?;
    }
    Ok(())
}

#[cycle(emit)]
fn emit_call(
    code: &mut Vec<Piece>,
    scope: &Scope,
    function: Function,
    arguments: &[Expr],
) -> Result<(), CompileError>
    ensures { OnOk result (code.new.items ≡ code.old.items
        ++ ((spec.all_pieces (scoped scope.now) (trees_of arguments.now)
        ++ spec.constants (spec.defaults function (length arguments.now))) ++ spec.call_pieces (spec.meaning function)
        (spec.chosen (spec.kinds_in (scoped scope.now) (trees_of arguments.now))))) }
{
    let choice = choice_of(scope, function, arguments)?;
    emit_all(code, scope, arguments)?;
    put_defaults(code, function, arguments.len())?;
    put_called(code, function, choice)
}

#[cycle(emit)]
fn emit_prefixed(
    code: &mut Vec<Piece>,
    scope: &Scope,
    prefix: prg_expr::Prefix,
    operand: &Expr,
) -> Result<(), CompileError>
    ensures { OnOk result (code.new.items ≡ code.old.items ++ (spec.pieces_in (scoped scope.now) (tree_of operand.now)
        ++ spec.prefix_pieces (prefix_fun_of prefix))) }
{
    emit(code, scope, operand)?;
    put_prefix(code, prefix_fun(prefix))
}

#[cycle(emit)]
#[tactic(auto, using(prg_expr::proofs::Equations::tree_equations, prg_expr::proofs::Equations::count_trees))]
fn emit(code: &mut Vec<Piece>, scope: &Scope, e: &Expr) -> Result<(), CompileError>
    ensures { OnOk result (code.new.items ≡ code.old.items ++ spec.pieces_in (scoped scope.now) (tree_of e.now)) }
{
    match e {
        Expr::Number(number) => put(code, Piece::Constant(Value::Number(*number))),
        Expr::Text(text) => put(code, Piece::Constant(text_value(text))),
        Expr::Logical(truth) => put(code, Piece::Constant(Value::Logical(*truth))),
        Expr::Name(name) => put_reading(code, read_name(scope, name)),
        Expr::Qualified(aliased) => {
            let AliasedName { alias, name } = &**aliased;
            put_reading(code, read_qualified(scope, alias.as_slice(), name))
        }
        Expr::Call(function, arguments) => emit_call(code, scope, *function, arguments),
        Expr::Parentheses(inner) => emit(code, scope, inner),
        Expr::Prefixed(prefix, operand) => emit_prefixed(code, scope, *prefix, operand),
        Expr::Binary(operator, left, right) => {
            let operation = operation_of(scope, *operator, left, right)?;
            if operation.swapped {
                emit(code, scope, right)?;
                emit(code, scope, left)?;
                put_operation(code, operation)
            } else {
                emit(code, scope, left)?;
                emit(code, scope, right)?;
                put_operation(code, operation)
            }
        }
    }
}

/// The pieces of the expression's code, which leaves its value on top; or its first fault.
pub fn pieces_of(alloc: Global, scope: &Scope, e: &Expr) -> Result<Vec<Piece>, CompileError>
    ensures { IfOk result (λ pieces. pieces.items ≡ spec.pieces_in (scoped scope.now) (tree_of e.now)) }
{
    let mut code = Vec::new(alloc);
    emit(&mut code, scope, e)?;
    Ok(code)
}
