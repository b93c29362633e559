//! Runs behind the end of the input: each further line is empty.

ghost use Rattle.calendar.specs.declared.day.DayParts.{DayParts};
ghost use Rattle.operating.specs.Answers.{OperatorBreaks};
ghost use Rattle.operating.specs.Pieces.{IsFurther, QuietTurned, Stood};
ghost use Rattle.operating.specs.Talks.{ComesTo, Talked};
ghost use Rattle.std.specs.Prelude.{◌≡◌, ◌≤◌, ℕ, List, Option, IfOk};
ghost use Rattle.work_area.specs.Areas.{StoreState};

use crate::laws::greater_budgets_change_no_end;
use crate::operator::{Broken, Operator};
use crate::pieces::{Piece, take_piece};
use crate::taking::{is_last, take_part};
use crate::talking::{miss, show};
use key_lists::KeyList;
use machine::Banks;
use run_laws::laws::{parts_make_the_whole, pieces_make_the_whole};
use run_steps::Outcome;
use std::alloc::Global;
use xverify::Verified;

/// What a turn behind the end of the input leads to.
#[derive(Clone, Copy)]
pub(crate) enum QuietTurn {
    /// The run ended so.
    Over(Outcome),
    /// It goes on behind steps of this cost.
    On(u64),
}

/// Goes on by a step, which takes an empty line where the next instruction takes one and none is left.
fn take_step<K: KeyList>(
    alloc: Global,
    verified: &Verified,
    banks: &mut Banks<K>,
    budget: u64,
    steps: u64,
) -> QuietTurn
    requires within { steps ≤ budget }
    requires stood { (store : StoreState) × (today : Option DayParts) × (bytes : List ℕ)
        × Stood verified.now store today bytes steps banks.old }
    ensures turned { (store : StoreState) (today : Option DayParts) (bytes : List ℕ)
        → Stood verified.now store today bytes steps banks.old
        → QuietTurned verified.now store today bytes budget result banks.new }
    ensures further { IsFurther budget steps result }
{
    parts_make_the_whole();
    greater_budgets_change_no_end();
    let left = budget - steps;
    let part = take_part(alloc, verified, banks, left, 1);
    let all = steps + part.outcome.steps;
    if is_last(part, left) {
        return QuietTurn::Over(Outcome {
            end: part.outcome.end,
            steps: all,
        });
    }
    QuietTurn::On(all)
}

/// Tells the operator of an empty line, and goes on by the step that takes it.
fn take_empty<O: Operator, K: KeyList>(
    alloc: Global,
    verified: &Verified,
    operator: &mut O,
    banks: &mut Banks<K>,
    budget: u64,
    steps: u64,
) -> Result<QuietTurn, Broken>
    requires within { steps ≤ budget }
    requires stood { (store : StoreState) × (today : Option DayParts) × (bytes : List ℕ)
        × Stood verified.now store today bytes steps banks.old }
    ensures turned { IfOk result (λ turn. (store : StoreState) (today : Option DayParts) (bytes : List ℕ)
        → Stood verified.now store today bytes steps banks.old
        → QuietTurned verified.now store today bytes budget turn banks.new) }
    ensures further { IfOk result (IsFurther budget steps) }
    ensures untold { O.answered operator.new ≡ O.answered operator.old }
    ensures cause { OperatorBreaks result (O.failure operator.old) (O.failure operator.new) }
{
    miss(verified, operator, banks)?;
    Ok(take_step(alloc, verified, banks, budget, steps))
}

/// One turn behind the end of the input. The run goes on to where it ends, takes an empty line, or stands at a marked
/// place. Then the operator is told of the line or shown what stands there.
fn take_quiet_turn<O: Operator, K: KeyList>(
    alloc: Global,
    verified: &Verified,
    marks: &[bool],
    operator: &mut O,
    banks: &mut Banks<K>,
    budget: u64,
    steps: u64,
) -> Result<QuietTurn, Broken>
    requires within { steps ≤ budget }
    requires stood { (store : StoreState) × (today : Option DayParts) × (bytes : List ℕ)
        × Stood verified.now store today bytes steps banks.old }
    ensures turned { IfOk result (λ turn. (store : StoreState) (today : Option DayParts) (bytes : List ℕ)
        → Stood verified.now store today bytes steps banks.old
        → QuietTurned verified.now store today bytes budget turn banks.new) }
    ensures further { IfOk result (IsFurther budget steps) }
    ensures untold { O.answered operator.new ≡ O.answered operator.old }
    ensures cause { OperatorBreaks result (O.failure operator.old) (O.failure operator.new) }
{
    pieces_make_the_whole();
    let left = budget - steps;
    let most = operator.hear(steps, budget);
    match take_piece(alloc, verified, marks, banks, left, most) {
        Piece::Ended(last) => Ok(QuietTurn::Over(Outcome {
            end: last.end,
            steps: steps + last.steps,
        })),
        Piece::Spent(more) => Ok(QuietTurn::On(steps + more)),
        Piece::Marked(more) => {
            show(verified, operator, banks)?;
            Ok(QuietTurn::On(steps + more))
        }
        Piece::Waits(more) => take_empty(alloc, verified, operator, banks, budget, steps + more),
    }
}

/// Goes on to the end of a run, whose further lines are empty. The operator was asked for the first of them.
pub(crate) fn run_out<O: Operator, K: KeyList>(
    alloc: Global,
    verified: &Verified,
    marks: &[bool],
    operator: &mut O,
    banks: &mut Banks<K>,
    budget: u64,
    steps: u64,
) -> Result<Outcome, Broken>
    requires within { steps ≤ budget }
    requires talked { (store : StoreState) × (today : Option DayParts) × (bytes : List ℕ)
        × Talked verified.now store today bytes steps banks.old }
    ensures comes_to { IfOk result (λ outcome. (store : StoreState) (today : Option DayParts) (bytes : List ℕ)
        → Talked verified.now store today bytes steps banks.old
        → ComesTo verified.now store today bytes budget outcome banks.new) }
    ensures untold { O.answered operator.new ≡ O.answered operator.old }
    ensures cause { OperatorBreaks result (O.failure operator.old) (O.failure operator.new) }
{
    pieces_make_the_whole();
    let mut turn = take_step(alloc, verified, banks, budget, steps);
    loop {
        match turn {
            QuietTurn::Over(outcome) => return Ok(outcome),
            QuietTurn::On(steps) => {
                turn = take_quiet_turn(alloc, verified, marks, operator, banks, budget, steps)?;
            }
        }
    }
}
