//! Runs part by part.

ghost use Rattle.machine.specs.Twins.{Begins, Twin};
ghost use Rattle.operating.specs.Parts.{RunsTo};
ghost use Rattle.run_steps.specs.World.{World};
ghost use Rattle.run_steps.specs.declared.ending.End.TheVariants.{Spent};
ghost use Rattle.std.specs.Prelude.{◌≡◌, ◌+◌, ◌<◌, ◌≤◌, true, false, min, max};

use crate::watcher::Watcher;
use key_lists::KeyList;
use machine::{Banks, banks_go_on, resume, run};
use run_laws::laws::parts_make_the_whole;
use run_steps::{End, Outcome};
use std::alloc::Global;
use xverify::Verified;

/// How a part of a run ended, and the budget that it had.
#[derive(Clone, Copy)]
pub struct RunPart {
    pub outcome: Outcome,
    pub budget: u64,
}

/// Whether a run ended because its budget was spent.
pub fn is_spent(end: End) -> bool
    ensures spent { result ≡ true → end ≡ Spent }
    ensures other { result ≡ false → end ≡ Spent → ⊥ }
{
    match end {
        End::Spent => true,
        End::Finished | End::Full(_) | End::NoMemory | End::Fault(_, _) => false,
    }
}

/// The lesser of what a part is to cost at most and all that is left.
pub fn lesser(most: u64, left: u64) -> u64
    ensures least { result ≡ min most left }
    ensures within { result ≤ left }
{
    if most < left { most } else { left }
}

/// Whether a part is the last one: it wasn't spent, or had all that was left.
pub fn is_last(part: RunPart, left: u64) -> bool
    requires { part.budget ≤ left }
    ensures last { result ≡ true → part.outcome.end ≡ Spent → part.budget ≡ left }
    ensures spent { result ≡ false → part.outcome.end ≡ Spent }
    ensures less { result ≡ false → part.budget < left }
{
    !is_spent(part.outcome.end) || part.budget == left
}

/// A greater budget, of all that is left at most: twice this one where that fits.
pub fn wider(budget: u64, left: u64) -> u64
    requires { budget < left }
    ensures wider { budget < result }
    ensures within { result ≤ left }
    ensures twice { result ≡ min (max 1 (budget + budget)) left }
{
    if budget == 0 {
        return 1;
    }
    if budget > left / 2 {
        return left;
    }
    budget + budget
}

/// Goes on with a run for a part of what is left of its budget. Where the next step is dearer than the part, the part
/// grows until it pays for it, or is all that is left.
pub(crate) fn take_part<K: KeyList>(
    alloc: Global,
    verified: &Verified,
    banks: &mut Banks<K>,
    left: u64,
    most: u64,
) -> RunPart
    requires twin { (w : World) × Twin verified.now w banks.old }
    ensures ran { (w : World) → Twin verified.now w banks.old
        → RunsTo verified.now w result.budget result.outcome banks.new }
    ensures asked { min most left ≤ result.budget }
    ensures within { result.budget ≤ left }
    ensures paid { result.outcome.steps ≤ result.budget }
    ensures further { result.outcome.end ≡ Spent → result.budget < left → 0 < result.outcome.steps }
{
    parts_make_the_whole();
    let mut budget = lesser(most, left);
    let mut outcome = resume(alloc, verified, banks, budget);
    while outcome.steps == 0 && budget < left && is_spent(outcome.end) {
        budget = wider(budget, left);
        outcome = resume(alloc, verified, banks, budget);
    }
    RunPart { outcome, budget }
}

/// Goes on with a run as `machine::resume` does, in parts: the watcher is told before each part what the steps cost so
/// far, and says what the next one is to cost at most. The run ends as it does in one part, at the same cost.
fn resume_in_parts<K: KeyList, W: Watcher>(
    alloc: Global,
    verified: &Verified,
    banks: &mut Banks<K>,
    budget: u64,
    watcher: &mut W,
) -> Outcome
    requires twin { (w : World) × Twin verified.now w banks.old }
    ensures { (w : World) → Twin verified.now w banks.old → RunsTo verified.now w budget result banks.new }
{
    parts_make_the_whole();
    let mut steps = 0;
    loop {
        let left = budget - steps;
        let most = watcher.hear(steps, budget);
        let part = take_part(alloc, verified, banks, left, most);
        let all = steps + part.outcome.steps;
        if is_last(part, left) {
            return Outcome {
                end: part.outcome.end,
                steps: all,
            };
        }
        steps = all;
    }
}

/// Runs accepted code from its beginning as `machine::run` does: at once if nobody watches, and else in parts. The
/// watcher is told before each part what the steps cost so far, and says what the next one is to cost at most. The run
/// ends as it does in one part, at the same cost.
pub fn run_in_parts<K: KeyList, W: Watcher>(
    alloc: Global,
    verified: &Verified,
    banks: &mut Banks<K>,
    budget: u64,
    watcher: &mut W,
) -> Outcome
    requires begun { (w : World) × Begins verified.now w banks.old }
    ensures { (w : World) → Begins verified.now w banks.old → RunsTo verified.now w budget result banks.new }
{
    if !watcher.is_watching() {
        return run(alloc, verified, banks, budget);
    }
    banks_go_on(verified);
    resume_in_parts(alloc, verified, banks, budget, watcher)
}
