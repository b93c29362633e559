//! Loops that are being written: round by round, until what is known at the head holds.

use crate::writer::{Writer, WrittenMark};
use code_items::State;
use prg_code::{CompileError, CompileFaultKind, MOST_SLOTS, is_state_same};
use std::alloc::AllocError;

/// The most rounds of a loop behind the first one. In each round but the last, something is lost that was known of a
/// slot or a work area.
const MORE_ROUNDS: u16 = 299;

/// A loop that is being written.
#[derive(Drop)]
pub struct OpenLoop {
    /// The line in which it begins.
    line: usize,
    /// What stood before its first round, and what was known there.
    mark: WrittenMark,
    entry: State,
    /// What is known at its head in this round.
    held: State,
    /// How many rounds may follow.
    rounds: u16,
}

/// Begins a loop in the line of the command whose code is being put. Gives the label of its head, which is here.
pub(crate) fn begin_loop(w: &mut Writer) -> Result<usize, CompileError> {
    let of = begun_loop(w)?;
    w.loops.push(of)?;
    put_head(w)
}

/// A loop before its first round, which begins with what is known at its head.
fn begun_loop(w: &mut Writer) -> Result<OpenLoop, AllocError> {
    let line = w.work.block.line;
    let entry = w.work.block.state.copied(w.alloc)?;
    let held = w.known_at_head(line)?;
    know(w, &held)?;
    let mark = w.mark()?;
    Ok(OpenLoop {
        line,
        mark,
        entry,
        held,
        rounds: MORE_ROUNDS,
    })
}

/// Goes on with what is known.
fn know(w: &mut Writer, state: &State) -> Result<(), AllocError> {
    w.work.block.state = state.copied(w.alloc)?;
    Ok(())
}

/// A new label, which is here.
fn put_head(w: &mut Writer) -> Result<usize, CompileError> {
    let label = w.work.block.new_label()?;
    w.place(label)?;
    Ok(label)
}

/// Ends a round of the innermost loop, whose head has this label. Where less is known at the head by its ways back than
/// in this round, the round is given up, and another one begins. Gives whether that is so.
pub(crate) fn end_round(w: &mut Writer, head: usize) -> Result<bool, CompileError> {
    let Some(of) = w.loops.pop() else {
        return Ok(false);
    };
    match known_again(w, &of, head)? {
        Some(state) => {
            again(w, of, state)?;
            Ok(true)
        }
        None => {
            end_loop(w, of)?;
            Ok(false)
        }
    }
}

/// What is known at the head of a loop, where that is less than in this round. Limit where no round may follow.
fn known_again(w: &mut Writer, of: &OpenLoop, head: usize) -> Result<Option<State>, CompileError> {
    let wider = wider(w, head, &of.held)?;
    if wider.is_some() && of.rounds == 0 {
        return Err(CompileError::Fault(CompileFaultKind::Limit));
    }
    Ok(wider)
}

/// What all ways to the head of a loop know, where that isn't what was known in this round. Merge where another work
/// area is selected on a way back.
fn wider(w: &mut Writer, head: usize, held: &State) -> Result<Option<State>, CompileError> {
    let Some(label) = w.work.block.labels.get(head) else {
        return Ok(None);
    };
    if label.split {
        w.passed(Err(CompileError::Fault(CompileFaultKind::Merge)))?;
        return Ok(None);
    }
    let Some(seen) = &label.state else {
        return Ok(None);
    };
    let state = seen.state(w.alloc, MOST_SLOTS)?;
    if is_state_same(&state, held) {
        return Ok(None);
    }
    Ok(Some(state))
}

/// Gives the round up, and begins another one with what is known at the head.
fn again(w: &mut Writer, of: OpenLoop, state: State) -> Result<(), CompileError> {
    w.give_up(&of.mark, &state)?;
    w.work.block.line = of.line;
    w.loops.push(with_state(of, state))?;
    put_head(w)?;
    Ok(())
}

/// The same where this is known at its head, and one round less may follow.
fn with_state(of: OpenLoop, state: State) -> OpenLoop {
    let mut of = of;
    of.held = state;
    of.rounds = of.rounds.saturating_sub(1);
    of
}

/// Remembers what held at the head of a loop that is written, if the loop took more than one round.
fn end_loop(w: &mut Writer, of: OpenLoop) -> Result<(), AllocError> {
    let OpenLoop {
        line,
        mark,
        entry,
        held,
        rounds,
    } = of;
    if rounds == MORE_ROUNDS {
        return Ok(());
    }
    w.remember(line, mark, entry, held)
}
