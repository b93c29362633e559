// Single expressions, compiled for names and a state of the caller's own: X is a number in slot 3, no area is open.

use crate::shown::{name_of, shape};
use code_items::{AreaState, Desk, Instr, Items, KindSlots, KindStack, State};
use prg_compile::{CompileRefusal, Names, Pool, Scope, Variable, compile_expr};
use prg_parser::{Expr, expr};
use std::alloc::{AllocError, Global};
use std::test::Fail;
use xvalue::Kind;

fn state_of(alloc: Global) -> Result<State, AllocError> {
    let mut slots = KindSlots::of(vec![in alloc; None; 8]?);
    slots.set(3, Some(Kind::Number));
    Ok(State {
        desk: Desk {
            selected: 1,
            areas: Items::of(vec![in alloc; AreaState::Closed; 10]?),
        },
        slots,
        stack: KindStack::of(Vec::new(alloc)),
    })
}

fn names_of(alloc: Global) -> Result<Names, AllocError> {
    let mut names = Names::new(alloc);
    let slot = 3;
    names.set(&name_of(b"X"), Variable { slot, own: true })?;
    Ok(names)
}

fn joined(alloc: Global, code: &[Instr], pool: &Pool) -> Result<String, AllocError> {
    let mut text = String::new(alloc);
    for instr in code {
        let piece = format!(in alloc; "{instr:?}; ")?;
        text.push_str(piece.as_str())?;
    }
    let constants = pool.len();
    let last = format!(in alloc; "{constants} constants")?;
    text.push_str(last.as_str())?;
    Ok(text)
}

fn compiled(alloc: Global, e: &Expr, pool: &mut Pool) -> Result<String, AllocError> {
    let shape = shape(alloc)?;
    let state = state_of(alloc)?;
    let names = names_of(alloc)?;
    let scope = Scope {
        shape: &shape,
        state: &state,
        names: &names,
        in_filter: false,
    };
    match compile_expr(alloc, e, &scope, pool) {
        Ok(code) => joined(alloc, &code, pool),
        Err(CompileRefusal::Fault(fault)) => {
            let kind = fault.kind;
            let (file, line) = (fault.file, fault.line);
            format!(in alloc; "{file} {line} {kind:?}")
        }
        Err(CompileRefusal::NoMemory) => String::from_str(alloc, "memory"),
    }
}

fn told(alloc: Global, text: &str, pool: &mut Pool) -> Result<String, AllocError> {
    match expr(alloc, text.as_bytes()) {
        Ok(e) => compiled(alloc, &e, pool),
        Err(_) => String::from_str(alloc, "no expression"),
    }
}

/// Expressions, and what is told of them; each is compiled with the constants of those before it.
const ROWS: &str = "\
     1 + X|Values(Constant(0)); Values(Load(Number, 3)); Values(Function(OfTwo(Add))); 1 constants\n\
     X * 1 - 1.0|Values(Load(Number, 3)); Values(Constant(0)); Values(Function(OfTwo(Mul))); \
     Values(Constant(1)); Values(Function(OfTwo(Sub))); 2 constants\n\
     X + 'A'|0 0 Kind\n\
     Y|0 0 Name\n\
     RECNO()|0 0 ClosedArea\n\
     'A' = 'A'|Values(Constant(2)); Values(Constant(2)); Values(Function(ToTruth(TextEq))); 3 constants\n\
    ";

/// The first row of which something else is told.
fn first_wrong<'a>(alloc: Global, rows: &'a str) -> Result<Option<&'a str>, AllocError> {
    let mut pool = Pool::new(alloc);
    for row in rows.lines() {
        let (text, wanted) = row.split_once('|').unwrap_or((row, ""));
        if told(alloc, text, &mut pool)?.as_str() != wanted {
            return Ok(Some(row));
        }
    }
    Ok(None)
}

#[test]
fn single_expressions(rt: HostRuntime) -> Result<(), Fail> {
    assert_eq!(rt; first_wrong(rt.alloc(), ROWS)?, None);
    Ok(())
}
