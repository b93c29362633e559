//! The checker as a sink: a command's code is compared with what stands in a finished code.

ghost use Rattle.std.specs.Prelude.{◌≡◌, true, IfOk};
ghost use Rattle.code_items.specs.declared.instr.FlowInstr.TheVariants.{Jump, JumpFalse};
ghost use Rattle.code_items.specs.declared.instr.Instr.TheVariants.{Flow};
ghost use Rattle.prg_values.specs.Placed.{InstrStands};
ghost use Rattle.prg_commands.specs.Acts as acts;
ghost use Rattle.prg_laid.specs.Layout.{laying, IsDeclaredList};

use crate::fault::{FoundLaid, OTHERWISE};
use crate::filters::demand_filter;
use crate::layout::{Layout, after, given, given_as, known, puts, scope_of};
use code_items::{AreaInstr, FlowInstr, Instr, Name, OpenArea, RecordInstr};
use prg_code::{CompileError, ListedIndexes};
use prg_commands::{Sink, Target};
use prg_expr::Expr;
use prg_parser::Program;
use prg_values::Scope;
use xvalue::{Kind, Value};

/// A finished code, and a place in it.
#[derive(Clone, Copy)]
pub struct Checker<'a> {
    pub layout: Layout<'a>,
    pub place: usize,
}

/// The number of the list that the instruction at this place names.
fn list_at(l: &Layout, place: usize) -> Option<u16> {
    match l.text.instrs.get(place) {
        Some(Instr::Areas(AreaInstr::Open { list, .. })) => match u16::try_from(*list) {
            Ok(list) => Some(list),
            Err(_) => None,
        },
        Some(Instr::Records(RecordInstr::Index(list))) => Some(*list),
        _ => None,
    }
}

/// Whether both are the same numbers.
fn are_same(one: &[u8], two: &[u8]) -> bool
    ensures { result ≡ true → one.now ≡ two.now }
{
    one == two
}

/// Whether the declared list of this number, counted from 0, is that of these indexes.
fn is_listed(l: &Layout, indexes: &[u8], number: usize) -> bool
    ensures { result ≡ true → IsDeclaredList (laying l.now) indexes.now number }
{
    match l.declared.lists.as_slice().get(number) {
        Some(list) => are_same(list.indexes.as_slice(), indexes),
        None => false,
    }
}

/// Whether this is the number, from 1, of the declared list of these indexes, or 0 and there are none.
#[tactic(auto, using(crate::proofs::Finding::numbered))]
fn is_list(l: &Layout, indexes: &[u8], number: u16) -> bool
    ensures { result ≡ true → acts.IsNumbered (laying l.now) indexes.now number }
{
    match indexes.split_first() {
        Some((_first, _others)) => {
            if number == 0 {
                return false;
            }
            is_listed(l, indexes, usize::from(number) - 1)
        }
        None => number == 0,
    }
}

/// The number of the filter that the instruction at this place names; none of no filter.
fn filter_at(l: &Layout, place: usize) -> Option<u16> {
    match l.text.instrs.get(place) {
        Some(Instr::Areas(AreaInstr::Filter(number))) if *number > 0 => Some(*number),
        _ => None,
    }
}

/// A jump that stands in a code: where it leads, and the place behind it.
#[derive(Clone, Copy)]
struct FoundJump {
    to: usize,
    end: usize,
}

/// The JUMP at this place.
fn jump_at(l: &Layout, place: usize) -> FoundLaid<FoundJump>
    ensures { IfOk result (λ j. InstrStands (laying l.now).text place (Flow (Jump j.to)) j.end) }
{
    match l.text.instrs.get(place) {
        Some(Instr::Flow(FlowInstr::Jump(there))) => Ok(FoundJump {
            to: *there as usize,
            end: place + 1,
        }),
        _ => Err(OTHERWISE),
    }
}

/// The JUMPF at this place.
fn fork_at(l: &Layout, place: usize) -> FoundLaid<FoundJump>
    ensures { IfOk result (λ j. InstrStands (laying l.now).text place (Flow (JumpFalse j.to)) j.end) }
{
    match l.text.instrs.get(place) {
        Some(Instr::Flow(FlowInstr::JumpFalse(there))) => Ok(FoundJump {
            to: *there as usize,
            end: place + 1,
        }),
        _ => Err(OTHERWISE),
    }
}

impl Sink for Checker<'_> {
    ghost use Rattle.prg_laid.specs.Layout.{laying as laying_of_layout};

    ghost laying = { λ c. laying_of_layout c.layout };

    ghost place = { λ c. c.place };

    ghost judges = { Unit {0} };

    fn scope(&self) -> Result<Scope, CompileError> {
        let state = known(&self.layout, self.place)?;
        Ok(scope_of(&self.layout, state, false))
    }

    fn put(&mut self, instr: Instr) -> Result<(), CompileError> {
        self.place = after(&self.layout, self.place, instr)?;
        Ok(())
    }

    fn constant(&mut self, value: Value) -> Result<(), CompileError> {
        self.place = puts(&self.layout, self.place, &value)?;
        Ok(())
    }

    fn value(&mut self, e: &Expr) -> Result<Kind, CompileError> {
        let given = given(&self.layout, self.place, e)?;
        self.place = given.end;
        Ok(given.kind)
    }

    fn slot(&mut self, name: &Name) -> Result<u8, CompileError> {
        self.layout.names.slot(name).ok_or(OTHERWISE)
    }

    fn hide(&mut self, _names: &[Name]) {}

    fn list(&mut self, indexes: ListedIndexes) -> Result<u16, CompileError> {
        match list_at(&self.layout, self.place) {
            Some(number) if is_list(&self.layout, indexes.as_slice(), number) => Ok(number),
            _ => Err(OTHERWISE),
        }
    }

    fn filter(&mut self, _table: u16, condition: &Expr) -> Result<u16, CompileError> {
        let Some(number) = filter_at(&self.layout, self.place) else {
            return Err(OTHERWISE);
        };
        demand_filter(&self.layout, self.place, condition, number)?;
        Ok(number)
    }

    fn has_order(&self, _area: OpenArea, _order: u16) -> bool {
        true
    }

    fn meets_filter(&self, _area: OpenArea) -> bool {
        true
    }

    fn at(&mut self, _line: usize) {}

    fn truth(&mut self, e: &Expr) -> Result<(), CompileError> {
        self.place = given_as(&self.layout, self.place, e, Kind::Logical)?;
        Ok(())
    }

    fn fork(&mut self) -> Result<usize, CompileError> {
        let fork = fork_at(&self.layout, self.place)?;
        self.place = fork.end;
        Ok(fork.to)
    }

    fn fork_to(&mut self, label: usize) -> Result<(), CompileError> {
        let fork = fork_at(&self.layout, self.place)?;
        if fork.to != label {
            return Err(OTHERWISE);
        }
        self.place = fork.end;
        Ok(())
    }

    fn jump(&mut self, label: usize) -> Result<(), CompileError> {
        let jump = jump_at(&self.layout, self.place)?;
        if jump.to != label {
            return Err(OTHERWISE);
        }
        self.place = jump.end;
        Ok(())
    }

    fn leave(&mut self, end: Option<usize>) -> Result<usize, CompileError> {
        let jump = jump_at(&self.layout, self.place)?;
        self.place = jump.end;
        match end {
            Some(end) if end != jump.to => Err(OTHERWISE),
            _ => Ok(jump.to),
        }
    }

    fn before(&mut self, label: usize, count: usize) -> Result<usize, CompileError> {
        Ok(label.saturating_sub(count))
    }

    fn lead(&mut self, label: usize) -> Result<(), CompileError> {
        if label == self.place {
            Ok(())
        } else {
            Err(OTHERWISE)
        }
    }

    fn mark(&mut self) -> Result<usize, CompileError> {
        Ok(self.place)
    }

    fn again(&mut self, _label: usize) -> Result<bool, CompileError> {
        Ok(false)
    }

    fn quit(&mut self) -> Result<(), CompileError> {
        self.put(Instr::Flow(FlowInstr::End))
    }

    fn give_back(&mut self) -> Result<(), CompileError> {
        self.put(Instr::Flow(FlowInstr::End))
    }

    fn note(&mut self, error: CompileError) -> Result<(), CompileError> {
        Err(error)
    }

    fn begin(&mut self) -> Result<(), CompileError> {
        Ok(())
    }

    fn end(&mut self, _kept: bool) -> Result<(), CompileError> {
        Ok(())
    }

    fn open(
        &mut self,
        _programs: &[Program],
        _procedure: &Name,
        _arguments: &[Expr],
    ) -> Result<Option<Target>, CompileError> {
        Err(OTHERWISE)
    }

    fn close(&mut self) -> Result<(), CompileError> {
        Ok(())
    }
}
