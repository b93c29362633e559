//! Runs on the checking machine, part by part.

ghost use Rattle.run_steps.specs.Run.{Ran};
ghost use Rattle.run_steps.specs.Shapes.{HasShape};
ghost use Rattle.run_steps.specs.declared.ending.End.TheVariants.{Spent};
ghost use Rattle.std.specs.Prelude.{◌≡◌, ◌<◌, ◌≤◌};
ghost use Rattle.work_area.specs.Areas.{AreApart};

use legal_code::LegalCode;
use ndx_tree::NdxTree;
use operating::laws::greater_budgets_change_no_end;
use operating::{RunPart, Watcher, is_last, is_spent, lesser, wider};
use run_laws::laws::parts_make_the_whole;
use run_steps::Outcome;
use std::alloc::Global;
use tagged_machine::{World, run_checked};

/// Goes on with a tested run for a part of what is left of its budget. Where the next step is dearer than the part, the
/// part grows until it pays for it, or is all that is left.
fn test_part(
    alloc: Global,
    code: &LegalCode,
    world: &mut World<NdxTree>,
    left: u64,
    most: u64,
) -> RunPart
    requires shape { HasShape code.now world.old }
    requires apart { AreApart world.old.env.store.areas }
    ensures ran { Ran code.now world.old result.budget result.outcome world.new }
    ensures within { result.budget ≤ left }
    ensures paid { result.outcome.steps ≤ result.budget }
    ensures further { result.outcome.end ≡ Spent → result.budget < left → 0 < result.outcome.steps }
    ensures shape { HasShape code.now world.new }
    ensures apart { AreApart world.new.env.store.areas }
{
    parts_make_the_whole();
    let mut budget = lesser(most, left);
    let mut outcome = run_checked(alloc, code, world, budget);
    while outcome.steps == 0 && budget < left && is_spent(outcome.end) {
        budget = wider(budget, left);
        outcome = run_checked(alloc, code, world, budget);
    }
    RunPart { outcome, budget }
}

/// Runs a code, accepted or not, as `tagged_machine::run_checked` does, in parts, as
/// `operating::run_in_parts` says. The run ends as it does in one part, at the same cost.
pub(crate) fn run_checked_in_parts<W: Watcher>(
    alloc: Global,
    code: &LegalCode,
    world: &mut World<NdxTree>,
    budget: u64,
    watcher: &mut W,
) -> Outcome
    requires shape { HasShape code.now world.old }
    requires apart { AreApart world.old.env.store.areas }
    ensures ran { Ran code.now world.old budget result world.new }
    ensures shape { HasShape code.now world.new }
    ensures apart { AreApart world.new.env.store.areas }
{
    parts_make_the_whole();
    greater_budgets_change_no_end();
    let mut steps = 0;
    loop {
        let left = budget - steps;
        let most = watcher.hear(steps, budget);
        let part = test_part(alloc, code, world, left, most);
        let all = steps + part.outcome.steps;
        if is_last(part, left) {
            return Outcome {
                end: part.outcome.end,
                steps: all,
            };
        }
        steps = all;
    }
}
