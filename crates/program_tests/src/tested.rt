// What the checking machine leaves of tables and indexes, saved as a run saves them.
#![tactic(auto)]

ghost use Rattle.std.specs.Prelude.{◌≡◌, IfSome, length};
ghost use Rattle.run_steps.specs.Shapes.{HasShape};
ghost use Rattle.work_area.specs.Areas.{AreApart};

use super::parts::RunCase;
use super::stored::{day_in, limit_in};
use super::tables::{lay, put_file};
use code_items::laws::legal_codes;
use file_access::{MemoryFiles, WrittenFile};
use file_commands::read_code;
use ndx_tree::NdxTree;
use run_commands::Report;
use run_laws::laws::new_stores_fit;
use std::alloc::Global;
use table_files::{load, save};
use tagged_machine::{End, World, run_checked};
use text_lines::TypedLines;
use xcode::LegalCode;

/// Gives a run just what its next step costs, if so much is left. Answers what it cost, or 0 where there is no step.
fn take_step(alloc: Global, code: &LegalCode, world: &mut World<NdxTree>, left: u64) -> u64
    requires shape { HasShape code.now world.old }
    requires apart { AreApart world.old.env.store.areas }
    ensures shape { HasShape code.now world.new }
    ensures apart { AreApart world.new.env.store.areas }
{
    for piece in 1..=left {
        let outcome = run_checked(alloc, code, world, piece);
        match outcome.end {
            End::Spent if outcome.steps == 0 => {}
            _ => return outcome.steps,
        }
    }
    0
}

/// Runs a code on the checking machine step by step. A block of more than one step is never paid for so, and each step
/// is tested by itself.
fn run_step_by_step(alloc: Global, code: &LegalCode, world: &mut World<NdxTree>, budget: u64)
    requires shape { HasShape code.now world.old }
    requires apart { AreApart world.old.env.store.areas }
    ensures shape { HasShape code.now world.new }
{
    let mut left = budget;
    for _ in 0..budget {
        left = left.saturating_sub(take_step(alloc, code, world, left));
    }
}

/// The world that a run of a code on the checking machine leaves, step by step.
fn world_behind(
    alloc: Global,
    files: &mut MemoryFiles<'_>,
    code: &LegalCode,
    case: RunCase<'_>,
    budget: u64,
) -> Option<World<NdxTree>>
    ensures count { IfSome result (λ world. length world.env.store.tables ≡ length code.now.declared.shape.tables) }
{
    legal_codes();
    new_stores_fit();
    let limit = limit_in(case)?.records();
    let day = day_in(case)?.day();
    let Ok(typed) = Vec::from_slice(alloc, case.says("typed\n").as_bytes()) else {
        return None;
    };
    let Ok(store) = load(alloc, files, &code.code().declared.shape, limit) else {
        return None;
    };
    let opened = World::opening(alloc, code, store, day, TypedLines::new(typed));
    let Ok(world) = opened else {
        return None;
    };
    let mut world = world;
    run_step_by_step(alloc, code, &mut world, budget);
    Some(world)
}

/// Runs the code of this name on the checking machine step by step, as a case says, and saves what that leaves. Answers
/// the rows that it printed, or none where that can't be done.
pub fn saved_by_checking(
    alloc: Global,
    files: &mut MemoryFiles<'_>,
    name: &str,
    case: RunCase<'_>,
    budget: u64,
) -> Option<Vec<u8>> {
    let day = day_in(case)?;
    let Ok(code) = read_code(alloc, files, name) else {
        return None;
    };
    legal_codes();
    let world = world_behind(alloc, files, &code, case, budget)?;
    let shape = &code.code().declared.shape;
    if save(alloc, files, shape, world.store(), day.stamp()).is_err() {
        return None;
    }
    world.finish(alloc).ok()
}

/// Makes the tables and the code of a case; whether that was done.
pub fn ready(
    alloc: Global,
    files: &mut MemoryFiles<'_>,
    name: &str,
    case: RunCase<'_>,
    code: &[u8],
) -> bool {
    lay(alloc, files, case) && put_file(alloc, files, name, code)
}

/// Whether a run printed these rows, if both are there.
pub fn printed_alike(report: Option<Report>, rows: Option<Vec<u8>>) -> bool {
    match (report, rows) {
        (Some(report), Some(rows)) => report.rows.as_slice() == rows.as_slice(),
        _ => false,
    }
}

/// Whether the same files were written, in the same order.
pub fn left_alike(one: &[WrittenFile], other: &[WrittenFile]) -> bool {
    one.len() == other.len()
        && one.iter().zip(other).all(|(file, another)| {
            file.name.as_str() == another.name.as_str()
                && file.bytes.as_slice() == another.bytes.as_slice()
        })
}
