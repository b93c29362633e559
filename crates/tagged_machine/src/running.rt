//! Runs that carry out no fault.

ghost use Rattle.std.specs.Prelude.{◌≡◌, ◌≤◌, ℕ, Some};
ghost use Rattle.code_items.specs.Legal.{IsCode};
ghost use Rattle.code_rules.specs.Rules.{Accepted};
ghost use Rattle.fit_laws.specs.Fits.{IsFitting, LevelsFall, procedure_at};
ghost use Rattle.run_steps.specs.Run.{after, Ran, IsFault, steps_made};
ghost use Rattle.run_steps.specs.Shapes.{HasShape};
ghost use Rattle.run_steps.specs.World.{World as AnyWorld};
ghost use Rattle.tagged_machine.specs.Seen.{world_seen};
ghost use Rattle.work_area.specs.Areas.{AreApart, IsWithinLimit, NoOpenIndexIsStale};

use crate::faults::fault;
use crate::guarded::Guarded;
use crate::scratch::TestScratch;
use crate::world::World;
use code_items::Code;
use code_items::code::places_of_blocks;
use code_items::laws::legal_codes;
use fit_laws::laws::{fitting_worlds_are_safe, levels_fall, runs_keep_fitting};
use key_lists::KeyList;
use legal_code::LegalCode;
use run_laws::laws::{
    faultless_instructions_are_clear, faultless_worlds_go_on, runs_keep_the_limit,
    runs_make_few_steps, safe_runs_meet_no_fault, steps_keep_the_shape,
};
use run_steps::running::finishes;
use run_steps::{End, Machine, Outcome, execute, finishing};
use run_values::Tagged;
use std::alloc::Global;

fn run_on<K: KeyList>(
    alloc: Global,
    code: &Code,
    machine: &mut Machine<Tagged, K>,
    scratch: &mut TestScratch,
    budget: u64,
) -> Outcome
    requires legal { IsCode code.now }
    requires shape { HasShape code.now (world_seen machine.old) }
    requires apart { AreApart machine.old.env.store.areas }
    ensures ran { Ran code.now (world_seen machine.old) budget result (world_seen machine.new) }
    ensures shape { HasShape code.now (world_seen machine.new) }
    ensures apart { AreApart machine.new.env.store.areas }
{
    legal_codes();
    faultless_instructions_are_clear();
    faultless_worlds_go_on();
    steps_keep_the_shape();
    let places = places_of_blocks(code.procedures.as_slice());
    let guarded = Guarded::of(alloc, code, &mut machine.values);
    let mut steps = 0;
    scratch.areas.show(machine.env.store());
    loop {
        steps += guarded.take_blocks(code, machine, budget - steps);
        let instr = *code.instructions.get(machine.place);
        let desk = scratch.areas.desk();
        if let Some(kind) = fault(code, places, machine, desk, &mut scratch.block, instr) {
            let end = End::Fault(kind, machine.place);
            return Outcome { end, steps };
        }
        if finishes(&machine.returns, instr) {
            return finishing(steps, budget);
        }
        match execute(
            alloc,
            code,
            &guarded.decoded.filters,
            machine,
            instr,
            budget - steps,
        ) {
            Ok(cost) => {
                steps += cost;
                scratch.areas.follow(machine.env.store(), instr);
            }
            Err(stop) => {
                let end = stop.end();
                return Outcome { end, steps };
            }
        }
    }
}

/// Runs a code, accepted or not, until it ends, within the budget. The run takes the steps that the definition gives,
/// and costs what they cost. The world is then that before the step at which it ended. A fault of the next step is told
/// before anything else, at any budget. Accepted code meets none from a world that fits what is known at its place, and
/// where it ends levels fall from call to call, and the world fits again. No table comes to have more records than its
/// limit, and no open index is stale then. The world keeps the code's shape, so that a run that ended may be taken up
/// again.
pub fn run_checked<K: KeyList>(
    alloc: Global,
    code: &LegalCode,
    world: &mut World<K>,
    budget: u64,
) -> Outcome
    requires shape { HasShape code.now world.old }
    requires apart { AreApart world.old.env.store.areas }
    ensures ran { Ran code.now world.old budget result world.new }
    ensures few { (ran : Ran code.now world.old budget result world.new) → steps_made ran.count result.end ≤ budget }
    ensures safe { Accepted code.now → IsFitting code.now world.old → ¬ IsFault result.end }
    ensures levels { Accepted code.now → IsFitting code.now world.old
        → LevelsFall code.now (procedure_at code.now world.new.place) world.new.returns }
    ensures shape { HasShape code.now world.new }
    ensures apart { AreApart world.new.env.store.areas }
    ensures fits { Accepted code.now → IsFitting code.now world.old → IsFitting code.now world.new }
    ensures within { (n : ℕ) (v : AnyWorld) → after code.now world.old n ≡ Some v
        → IsWithinLimit world.old.env.store.limit v.env.store }
    ensures fresh { NoOpenIndexIsStale world.new.env.store }
{
    runs_make_few_steps();
    safe_runs_meet_no_fault();
    fitting_worlds_are_safe();
    levels_fall();
    runs_keep_fitting();
    runs_keep_the_limit();
    world.machine.store().tables_are_within_the_limit();
    let outcome = run_on(
        alloc,
        code.code(),
        &mut world.machine,
        &mut world.scratch,
        budget,
    );
    world.machine.store().no_open_index_is_stale();
    outcome
}
