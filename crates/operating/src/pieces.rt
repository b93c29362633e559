//! Pieces of a run that goes on until it waits for a line.

ghost use Rattle.machine.specs.Twins.{Twin};
ghost use Rattle.operating.specs.Pieces.{cost_of_piece, PieceGoes, IsEndOf, WaitsDry};
ghost use Rattle.run_steps.specs.World.{World};
ghost use Rattle.run_steps.specs.declared.ending.End.TheVariants.{Spent};
ghost use Rattle.run_steps.specs.declared.pausing.Leg.TheVariants.{Ended};
ghost use Rattle.std.specs.Prelude.{◌≡◌, ◌<◌, ◌≤◌, true, false};

use crate::laws::greater_budgets_change_no_end;
use crate::taking::{lesser, wider};
use key_lists::KeyList;
use machine::{Banks, Leg, resume_to_line};
use run_laws::laws::runs_cost_their_steps;
use run_steps::{End, Outcome};
use std::alloc::Global;
use xverify::Verified;

/// How far a piece of a run went on.
#[derive(Clone, Copy)]
pub(crate) enum Piece {
    /// The run ended.
    Ended(Outcome),
    /// Behind steps of this cost the next instruction takes a line of the operator, and none is left.
    Waits(u64),
    /// Behind steps of this cost, at least one, the run stands at a marked place.
    Marked(u64),
    /// Behind steps of this cost, at least one, it went on for as much as it was to, and has some of its budget left.
    Spent(u64),
}

/// Whether a leg took no step since its budget didn't pay for one, and more is left.
fn is_stuck(leg: &Leg, budget: u64, left: u64) -> bool
    ensures stuck { result ≡ true → leg.now ≡ Ended (record { end = Spent; steps = 0 }) }
    ensures more { result ≡ true → budget < left }
    ensures other { result ≡ false → budget < left → leg.now ≡ Ended (record { end = Spent; steps = 0 }) → ⊥ }
{
    match leg {
        Leg::Ended(
            Outcome {
                end: End::Spent,
                steps: 0,
            },
        ) => budget < left,
        _ => false,
    }
}

/// What the end of a leg is for a run that has so much of its budget left.
fn end_of(outcome: Outcome, budget: u64, left: u64) -> Piece
    requires within { budget ≤ left }
    ensures { IsEndOf outcome budget left result }
{
    match outcome.end {
        End::Spent if budget < left => Piece::Spent(outcome.steps),
        _ => Piece::Ended(outcome),
    }
}

/// Goes on with a run for a part of what is left of its budget, until it ends, waits, or stands at a marked place.
/// Where the next step is dearer than the part, the part grows until it pays for it, or is all that is left.
pub(crate) fn take_piece<K: KeyList>(
    alloc: Global,
    verified: &Verified,
    marks: &[bool],
    banks: &mut Banks<K>,
    left: u64,
    most: u64,
) -> Piece
    requires twin { (w : World) × Twin verified.now w banks.old }
    ensures goes { (w : World) → Twin verified.now w banks.old → PieceGoes verified.now w left result banks.new }
    ensures within { cost_of_piece result ≤ left }
    ensures dry { WaitsDry result banks.new }
{
    runs_cost_their_steps();
    greater_budgets_change_no_end();
    let mut budget = lesser(most, left);
    let mut leg = resume_to_line(alloc, verified, marks, banks, budget);
    while is_stuck(&leg, budget, left) {
        budget = wider(budget, left);
        leg = resume_to_line(alloc, verified, marks, banks, budget);
    }
    match leg {
        Leg::Ended(outcome) => end_of(outcome, budget, left),
        Leg::Waits(steps) => Piece::Waits(steps),
        Leg::Marked(steps) => Piece::Marked(steps),
    }
}
