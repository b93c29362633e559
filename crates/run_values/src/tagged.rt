//! Values that keep their kinds: those without tags, and the kind of each beside them.

ghost use Rattle.std.specs.Prelude.{◌≡◌, ◌≤◌, IfOk, [], length, map, replicate, reverse, slice_get, None};
ghost use Rattle.run_values.specs.Operands.{no_registers};
ghost use Rattle.run_values.specs.Standing.{IsTagged};
ghost use Rattle.xvalue.specs.Kinds.{kind_of, kind_held};

use crate::operands::{Operand, SLOT_PLACES};
use crate::pile::Pile;
use crate::untagged::Untagged;
use crate::values::{Registered, Values};
use fixed_num::Num;
use std::alloc::{AllocError, Global};
use std::marker::Model;
use xvalue::laws::{arguments_are_few, results_have_their_kind};
use xvalue::{Fun, Kind, Lent, Settings, Text, Value};

/// Slots and a stack of values with their kinds, and registers.
#[derive(Drop)]
pub struct Tagged {
    values: Untagged,
    slots: Vec<Option<Kind>>,
    stack: Pile<Kind>,
}

impl Model for Tagged {
    ghost use Rattle.run_values.specs.Kept.{IsOfKinds, state_by, tagged_by};
    ghost use Rattle.run_values.specs.Standing.{TaggedState};

    ghost Value = { TaggedState };

    ghost view = { λ s. state_by s.slots.items s.stack s.values };

    ghost invariant = { λ s. IsOfKinds s.slots.items s.stack s.values (tagged_by s.slots.items s.stack s.values) };
}

/// As many kinds of slots, all of which are unset.
fn unset_slots(alloc: Global, count: usize) -> Result<Vec<Option<Kind>>, AllocError>
    ensures { IfOk result (λ slots. slots.items ≡ replicate count None) }
{
    let mut slots = Vec::new(alloc);
    for _ in 0..count {
        slots.push(None)?;
    }
    Ok(slots)
}

impl Tagged {
    /// So many slots, at most 256, all unset, an empty stack and no registers.
    pub fn new(alloc: Global, slots: usize) -> Result<Tagged, AllocError>
        requires { slots ≤ 256 }
        ensures { IfOk result (λ values. values
            ≡ record { slots = replicate slots None; stack = []; registers = no_registers }) }
    {
        Ok(Tagged {
            values: Untagged::new(alloc, slots)?,
            slots: unset_slots(alloc, slots)?,
            stack: Pile::new(alloc)?,
        })
    }

    /// The kinds of the values on the stack, the top last.
    pub fn kinds(&self) -> &[Kind]
        ensures { reverse result.now ≡ map kind_of self.now.stack }
    {
        self.stack.values()
    }

    /// How many values there are on the stack.
    pub fn height(&self) -> usize
        ensures { result ≡ length self.now.stack }
    {
        self.stack.len()
    }

    /// The kind of what a slot holds, none within where it is unset; none where there is no such slot.
    pub fn kind_at(&self, slot: usize) -> Option<Option<Kind>>
        ensures { result ≡ slice_get (map kind_held self.now.slots) slot }
    {
        match self.slots.get(slot) {
            Some(kind) => Some(*kind),
            None => None,
        }
    }
}

impl Values for Tagged {
    ghost stands = { IsTagged };

    ghost registers = { λ s. s.registers };

    fn push(&mut self, value: Value) {
        let kind = value.kind();
        self.values.push(value);
        self.stack.push(kind);
    }

    fn push_copy(&mut self, value: &Value) {
        self.values.push_copy(value);
        self.stack.push(value.kind());
    }

    fn top_lent(&self, kind: Kind) -> Lent<'_> {
        self.values.top_lent(kind)
    }

    fn push_lent(&mut self, value: &Lent<'_>) {
        self.values.push_lent(value);
        self.stack.push(value.kind());
    }

    fn top_number(&self) -> Num {
        self.values.top_number()
    }

    fn top_text(&self) -> &[u8] {
        self.values.top_text()
    }

    fn shown(&self, kind: Kind, settings: Settings) -> Text {
        self.values.shown(kind, settings)
    }

    fn truth(&self) -> bool {
        self.values.truth()
    }

    fn push_number(&mut self, number: Num) {
        self.values.push_number(number);
        self.stack.push(Kind::Number);
    }

    fn pop_number(&mut self) -> Num {
        self.stack.drop_top(1);
        self.values.pop_number()
    }

    fn push_truth(&mut self, truth: bool) {
        self.values.push_truth(truth);
        self.stack.push(Kind::Logical);
    }

    fn pop_truth(&mut self) -> bool {
        self.stack.drop_top(1);
        self.values.pop_truth()
    }

    fn discard(&mut self, kind: Kind) {
        self.values.discard(kind);
        self.stack.drop_top(1);
    }

    fn value(&self, kind: Kind, slot: usize) -> Lent<'_> {
        self.values.value(kind, slot)
    }

    fn number(&self, operand: Operand) -> &Num {
        self.values.number(operand)
    }

    fn held_truth(&self, operand: Operand) -> bool {
        self.values.held_truth(operand)
    }

    fn load(&mut self, kind: Kind, slot: usize) {
        self.values.load(kind, slot);
        self.stack.push(kind);
    }

    fn store(&mut self, kind: Kind, slot: usize) {
        self.values.store(kind, slot);
        self.slots[slot] = Some(kind);
        self.stack.drop_top(1);
    }

    fn unset(&mut self, slot: usize) {
        self.values.unset(slot);
        self.slots[slot] = None;
    }

    fn call(&mut self, fun: Fun, settings: Settings) {
        arguments_are_few();
        results_have_their_kind();
        self.values.call(fun, settings);
        self.stack.drop_top(fun.takes().len());
        self.stack.push(fun.gives());
    }
}

impl Registered for Tagged {
    fn set_number_register(&mut self, register: usize, number: Num) {
        self.values.set_number_register(register, number);
    }

    fn put_number(&mut self, to: Operand, number: Num) {
        self.values.put_number(to, number);
        if to.place < SLOT_PLACES {
            self.slots[usize::from(to.place)] = Some(Kind::Number);
        }
    }

    fn set_truth_register(&mut self, register: usize, truth: bool) {
        self.values.set_truth_register(register, truth);
    }

    fn fill_registers(&mut self, constants: &[Value]) -> bool {
        self.values.fill_registers(constants)
    }
}
