//! What held at the heads of loops in rounds that were given up afterwards.
//!
//! A loop within another one is compiled again with each of its rounds. What held at its head once holds again, as far
//! as nothing more is known where it begins; so it need not be found a second time.

ghost use Rattle.std.specs.Prelude.{◌≡◌, IfOk};
ghost use Rattle.prg_writer.specs.Writing.{IsKnownAtHead};

use crate::writer::{Writer, WrittenMark};
use code_items::State;
use prg_code::{Names, merged};
use std::alloc::AllocError;

/// What held at a loop's head, and where the loop began.
#[derive(Drop)]
pub struct LoopHead {
    file: usize,
    line: usize,
    slots: u16,
    names: Names,
    entry: State,
    head: State,
}

/// Whether all that the first knows is known in the second.
fn is_wider(map: &State, state: &State) -> bool {
    state.slots.is_covered_by(&map.slots) && state.desk.is_covered_by(&map.desk)
}

fn is_head(w: &Writer, line: usize, head: &LoopHead) -> bool {
    head.file == w.work.file
        && head.line == line
        && head.slots == w.out.slots
        && head.names.is_same(&w.work.names)
        && is_wider(&w.work.block.state, &head.entry)
}

fn found<'a>(w: &'a Writer<'_>, line: usize) -> Option<&'a LoopHead> {
    let mut last = None;
    for head in &w.heads {
        if is_head(w, line, head) {
            last = Some(head);
        }
    }
    last
}

impl Writer<'_> {
    /// What is known at the head of the loop that begins in this line: what is known here, without what an earlier
    /// round lost.
    pub fn known_at_head(&self, line: usize) -> Result<State, AllocError>
        ensures { IfOk result (IsKnownAtHead self.now.work.block.state) }
    {
        match found(self, line) {
            Some(head) => merged(self.alloc, &self.work.block.state, &head.head),
            None => self.work.block.state.copied(self.alloc),
        }
    }

    /// Remembers what held at the head of a loop that began at the mark, where this was known.
    pub fn remember(
        &mut self,
        line: usize,
        mark: WrittenMark,
        entry: State,
        head: State,
    ) -> Result<(), AllocError>
        // Nothing is written.
        ensures { self.new ≡ record self.old { heads = self.new.heads } }
    {
        let WrittenMark { slots, names, .. } = mark;
        self.heads.push(LoopHead {
            file: self.work.file,
            line,
            slots,
            names,
            entry,
            head,
        })?;
        Ok(())
    }
}
