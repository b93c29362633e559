//! What is known before a place.

ghost use Rattle.std.specs.Prelude.{◌≡◌, IfOk};

use crate::desk::Desk;
use crate::kind_slots::KindSlots;
use crate::kind_stack::KindStack;
use std::alloc::{AllocError, Global};

/// What is known before a place: of the work areas, of the slots, and of the stack.
#[derive(Drop)]
pub struct State {
    pub desk: Desk,
    pub slots: KindSlots,
    pub stack: KindStack,
}

impl State {
    /// The same state once more.
    pub fn copied(&self, alloc: Global) -> Result<State, AllocError>
        ensures { IfOk result (λ copy. copy ≡ self.now) }
    {
        Ok(State {
            desk: self.desk.copied(alloc)?,
            slots: self.slots.copied(alloc)?,
            stack: self.stack.copied(alloc)?,
        })
    }
}
