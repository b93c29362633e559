//! Keys as declared, and INDEX.

ghost use Rattle.std.specs.Prelude.{◌≡◌, [], ◌∷◌, IfOk, OnOk};
ghost use Rattle.prg_commands.specs.Acts as acts;

use crate::areas::{index_named, is_of_table, opened};
use crate::moves::demand_filter;
use crate::sink::Sink;
use arrayvec::ArrayVec;
use code_items::{Instr, KeyPart, Name, RecordInstr, Shape};
use dbf_file::Field;
use prg_code::{CompileError, CompileFaultKind, ListedIndexes};
use prg_expr::{BinaryOperator, Expr, Function};

fn is_field(fields: &[Field], number: u8, name: &[u8]) -> bool {
    match fields.get(usize::from(number)) {
        Some(field) => field.name.as_slice() == name,
        None => false,
    }
}

fn is_name(fields: &[Field], number: u8, e: &Expr) -> bool {
    match e {
        Expr::Name(name) => is_field(fields, number, name.as_slice()),
        _ => false,
    }
}

fn is_only_name(fields: &[Field], number: u8, arguments: &[Expr]) -> bool {
    match arguments {
        [e] => is_name(fields, number, e),
        _ => false,
    }
}

/// Whether the expression is the part of a key: its field, in UPPER() where capitals are taken.
fn is_part(fields: &[Field], part: KeyPart, e: &Expr) -> bool {
    match e {
        Expr::Call(Function::Upper, arguments) => {
            part.upper && is_only_name(fields, part.field, arguments)
        }
        _ => !part.upper && is_name(fields, part.field, e),
    }
}

/// Whether the expression is the key of these parts, joined by plus signs.
fn is_key(e: &Expr, fields: &[Field], parts: &[KeyPart]) -> bool {
    match e {
        Expr::Binary(BinaryOperator::Plus, left, right) => match parts.split_last() {
            Some((last, others)) => is_part(fields, *last, right) && is_key(left, fields, others),
            None => false,
        },
        _ => match parts {
            [part] => is_part(fields, *part, e),
            _ => false,
        },
    }
}

/// Whether the expression is the declared key of the index of this number.
fn is_key_of(shape: &Shape, number: u8, e: &Expr) -> bool {
    let Some(index) = shape.indexes.as_slice().get(usize::from(number)) else {
        return false;
    };
    match shape.tables.as_slice().get(usize::from(index.table)) {
        Some(table) => is_key(e, table.fields.as_slice(), index.key.parts()),
        None => false,
    }
}

/// The list of this index alone.
fn list_of_one(index: u8) -> ListedIndexes
    ensures { result.items ≡ index ∷ [] }
{
    let mut indexes = ArrayVec::new();
    let _ = indexes.try_push(index);
    indexes
}

/// The number of the index of this name, whose table is the selected one and whose key is this one: Name where it isn't
/// declared, Index where it is of another table or key, Filter where a filter's variable isn't known to have its value.
fn index_to_make<S: Sink>(sink: &S, key: &Expr, name: &Name) -> Result<u8, CompileError>
    ensures { S.judges → IfOk result (acts.IsIndex (S.laying sink.now) name.now.items) }
{
    let scope = sink.scope()?;
    let shape = scope.shape;
    let Some(number) = index_named(shape.indexes.as_slice(), name.as_slice()) else {
        return Err(CompileError::Fault(CompileFaultKind::Name));
    };
    let area = opened(sink)?;
    if !is_of_table(shape.indexes.as_slice(), number, area.table)
        || !is_key_of(shape, number, key)
    {
        return Err(CompileError::Fault(CompileFaultKind::Index));
    }
    demand_filter(sink, area)?;
    Ok(number)
}

/// The number of the list of the index of this name alone.
#[tactic(auto, using(crate::proofs::Indexes::is_list))]
fn list_to_make<S: Sink>(sink: &mut S, key: &Expr, name: &Name) -> Result<u16, CompileError>
    ensures number { S.judges → IfOk result (acts.IsList (S.laying sink.old) (name.now.items ∷ [])) }
    ensures place { S.judges → S.place sink.new ≡ S.place sink.old }
    ensures same { S.laying sink.new ≡ S.laying sink.old }
{
    let number = index_to_make(sink, key, name)?;
    sink.list(list_of_one(number))
}

/// `INDEX ON key TO index`.
pub fn index_on<S: Sink>(sink: &mut S, key: &Expr, name: &Name) -> Result<(), CompileError>
    ensures laid { S.judges → OnOk result (acts.Indexed (S.laying sink.old) (S.place sink.old)
        (name.now.items ∷ []) (S.place sink.new)) }
    ensures same { S.laying sink.new ≡ S.laying sink.old }
{
    let list = list_to_make(sink, key, name)?;
    sink.put(Instr::Records(RecordInstr::Index(list)))
}
