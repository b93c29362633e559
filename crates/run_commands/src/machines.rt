// Runs of codes over loaded tables.
#![tactic(auto)]

ghost use Rattle.std.specs.Prelude.{◌≡◌, IfOk};
ghost use Rattle.run_steps.specs.Shapes.{StoreFits};
ghost use Rattle.run_commands.specs.Runs.{IsLeft, IsSoundRun};

use crate::job::Job;
use crate::testing::run_checked_in_parts;
use legal_code::LegalCode;
use machine::Banks;
use ndx_tree::NdxTree;
use operating::{Watcher, run_in_parts, typed};
use run_steps::Outcome;
use std::alloc::{AllocError, Global};
use tagged_machine::World;
use work_area::Store;
use xverify::Verified;

/// A run that came to its end: what is printed, and how it ended.
#[derive(Drop)]
pub(crate) struct Run {
    pub rows: Vec<u8>,
    pub outcome: Outcome,
}

/// A run of any code that came to its end, with the tables that it left.
#[derive(Drop)]
pub(crate) struct TestedRun {
    pub run: Run,
    pub world: World<NdxTree>,
}

/// A run of an accepted code that came to its end, with the tables that it left.
#[derive(Drop)]
pub(crate) struct AcceptedRun {
    pub run: Run,
    pub banks: Banks<NdxTree>,
}

impl TestedRun {
    /// The run alone, without the tables that it left. It stands apart, since a world has much to give back.
    pub(crate) fn alone(self) -> Run
        ensures { result ≡ self.run }
    {
        self.run
    }
}

impl AcceptedRun {
    /// The run alone, without the tables that it left.
    pub(crate) fn alone(self) -> Run
        ensures { result ≡ self.run }
    {
        self.run
    }
}

/// Runs a code, accepted or not, on the checking machine, in the parts that the watcher says.
pub(crate) fn run_any<W: Watcher>(
    alloc: Global,
    code: &LegalCode,
    store: Store<NdxTree>,
    job: &Job<'_>,
    watcher: &mut W,
) -> Result<TestedRun, AllocError>
    requires fits { StoreFits code.now.declared store }
    ensures { IfOk result (λ done. IsLeft code.now store job.now done.run.outcome done.run.rows.items
        done.world.env.store) }
{
    let lines = typed(alloc, job.input)?;
    let mut world = World::opening(alloc, code, store, job.day.day(), lines)?;
    let outcome = run_checked_in_parts(alloc, code, &mut world, job.budget, watcher);
    let rows = world.finish(alloc)?;
    Ok(TestedRun {
        run: Run { rows, outcome },
        world,
    })
}

/// Runs an accepted code on the machine without tags, in the parts that the watcher says.
pub(crate) fn run_accepted<W: Watcher>(
    alloc: Global,
    verified: &Verified,
    store: Store<NdxTree>,
    job: &Job<'_>,
    watcher: &mut W,
) -> Result<AcceptedRun, AllocError>
    requires fits { StoreFits verified.now.declared store }
    ensures { IfOk result (λ done. IsSoundRun verified.now store job.now done.run.outcome done.run.rows.items
        done.banks.env.store) }
{
    let lines = typed(alloc, job.input)?;
    let mut banks = Banks::opening(alloc, verified, store, job.day.day(), lines)?;
    let outcome = run_in_parts(alloc, verified, &mut banks, job.budget, watcher);
    let rows = banks.finish(alloc)?;
    Ok(AcceptedRun {
        run: Run { rows, outcome },
        banks,
    })
}
