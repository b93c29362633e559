//! Runs without a test.

ghost use Rattle.machine.specs.Acceptance.{RunsWell};
ghost use Rattle.machine.specs.Headline.{Headline};
ghost use Rattle.machine.specs.Pauses.{GoesTo};
ghost use Rattle.machine.specs.Twins.{BankState, Begins, Twin};
ghost use Rattle.run_steps.specs.Pausing.{with_more};
ghost use Rattle.run_steps.specs.World.{World, with_lines};
ghost use Rattle.std.specs.Prelude.{◌≡◌, ℕ, List, true};
ghost use Rattle.text_lines.specs.Lines.{is_out};

use crate::banks::Banks;
use fit_laws::laws::{
    fitting_worlds_are_safe, fitting_worlds_keep_the_bounds, openings_fit, runs_keep_fitting,
};
use key_lists::KeyList;
use run_laws::laws::{
    runs_cost_their_steps, runs_keep_the_limit, runs_make_few_steps, safe_runs_meet_no_fault,
};
use run_steps::{Leg, Outcome, run as run_untested, run_to_line};
use std::alloc::Global;
use work_area::laws::{stores_keep_their_shape, tables_keep_their_kind};
use xverify::Verified;

/// The runs of an accepted code are safe, and keep what the verifier knows.
fn accepted_codes_run_well(verified: &Verified)
    ensures { RunsWell verified.now }
{
    fitting_worlds_are_safe();
    runs_keep_fitting();
    fitting_worlds_keep_the_bounds();
    stores_keep_their_shape();
    tables_keep_their_kind();
    runs_keep_the_limit();
    runs_cost_their_steps();
    runs_make_few_steps();
    safe_runs_meet_no_fault();
    let _code = verified.code();
}

/// Goes on with a run of accepted code until it ends, within a further budget, from banks that a run left, or any that
/// agree with a world of the code's runs. For each such world it takes the checking machine's steps and meets no fault:
/// the same screen, rows and pointers, within the declared stack and the budget. It ends finished, spent, with a full
/// table, or short of memory; at the last three the banks agree with the world before the step that wasn't taken. What
/// parts of a run come to together is the law `parts_make_the_whole` of `run_laws`.
pub fn resume<K: KeyList>(
    alloc: Global,
    verified: &Verified,
    banks: &mut Banks<K>,
    budget: u64,
) -> Outcome
    requires { (w : World) × Twin verified.now w banks.old }
    ensures { (w : World) → Twin verified.now w banks.old → Headline verified.now w budget result banks.new }
{
    accepted_codes_run_well(verified);
    let code = verified.code();
    banks.machine.store().tables_are_within_the_limit();
    let outcome = run_untested(alloc, code, &banks.decoded, &mut banks.machine, budget);
    banks.machine.store().no_open_index_is_stale();
    outcome
}

/// Runs accepted code from its beginning until it ends, within the budget, over any tables of the declared structures,
/// with any lines of the operator, on any day. It takes the checking machine's steps and meets no fault, as `resume`
/// says.
pub fn run<K: KeyList>(
    alloc: Global,
    verified: &Verified,
    banks: &mut Banks<K>,
    budget: u64,
) -> Outcome
    requires { (w : World) × Begins verified.now w banks.old }
    ensures { (w : World) → Begins verified.now w banks.old → Headline verified.now w budget result banks.new }
{
    banks_go_on(verified);
    resume(alloc, verified, banks, budget)
}

/// Goes on as `resume` does, and pauses where the next instruction takes a line of the operator, none is left, and its
/// cost fits what is left of the budget. Whether the budget is spent is judged first. The run also pauses behind at
/// least one step, before the first instruction on the screen at a marked place that it comes to. Marks are for such
/// instructions: it pauses at others too, unless they are passed over within a block. No step that was taken took a
/// line where none was left. At a pause the banks agree with the world before the next step, and a run may go on from
/// there. What pieces of a run come to together are the laws `lines_behind_change_no_step` and `pieces_make_the_whole`
/// of `run_laws`.
pub fn resume_to_line<K: KeyList>(
    alloc: Global,
    verified: &Verified,
    marks: &[bool],
    banks: &mut Banks<K>,
    budget: u64,
) -> Leg
    requires { (w : World) × Twin verified.now w banks.old }
    ensures { (w : World) → Twin verified.now w banks.old
        → GoesTo verified.now w budget marks.now result banks.new }
{
    accepted_codes_run_well(verified);
    banks.machine.store().tables_are_within_the_limit();
    let leg = run_to_line(
        alloc,
        verified.code(),
        &banks.decoded,
        marks,
        &mut banks.machine,
        budget,
    );
    banks.machine.store().no_open_index_is_stale();
    leg
}

/// Banks from which a run begins agree with a world of the code's runs, and so do those that took lines: with the same
/// world, with these lines behind those that were left.
pub fn banks_go_on(verified: &Verified)
    ensures begun { (w : World) (b : BankState) → Begins verified.now w b → Twin verified.now w b }
    ensures more { (w : World) (b : BankState) (lines : List (List ℕ)) → Twin verified.now w b
        → is_out b.env.lines ≡ true
        → Twin verified.now (with_more lines w) (record b { env = with_lines lines b.env }) }
{
    openings_fit();
    let _code = verified.code();
}
