// Runs of accepted code in parts: one that its budget ends, and one that goes on from there.
#![tactic(auto)]

ghost use Rattle.std.specs.Prelude.{IfSome};
ghost use Rattle.machine.specs.Twins.{Begins};
ghost use Rattle.run_steps.specs.World.{World};

use super::cases::{CODE, compiled};
use super::parts::{RunCase, are_bytes};
use super::stored::{day_in, limit_in};
use code_items::laws::legal_codes;
use file_access::{MemoryFiles, WORKS_FOR_EVER};
use file_commands::read_code;
use key_lists::KeyList;
use machine::{Banks, resume, run};
use ndx_tree::NdxTree;
use run_laws::laws::new_stores_fit;
use run_steps::{End, Outcome};
use std::alloc::Global;
use table_files::load;
use text_lines::TypedLines;
use xverify::{Verified, verify};

/// A run in parts: how it ended within its first budget, without one behind that, and within what was left; and what it
/// left.
#[derive(Drop)]
struct InParts {
    before: Outcome,
    between: Outcome,
    after: Outcome,
    banks: Banks<NdxTree>,
}

/// The code of a case, accepted.
fn accepted(alloc: Global, files: &mut MemoryFiles<'_>, case: RunCase<'_>) -> Option<Verified> {
    if !compiled(alloc, files, case) {
        return None;
    }
    match read_code(alloc, files, CODE) {
        Ok(code) => verify(alloc, code).ok(),
        Err(_) => None,
    }
}

/// The banks from which a run of a case's code begins.
fn begun(
    alloc: Global,
    files: &mut MemoryFiles<'_>,
    verified: &Verified,
    case: RunCase<'_>,
) -> Option<Banks<NdxTree>>
    ensures { IfSome result (λ banks. (w : World) × Begins verified.now w banks) }
{
    legal_codes();
    new_stores_fit();
    let limit = limit_in(case)?.records();
    let day = day_in(case)?.day();
    let Ok(bytes) = Vec::from_slice(alloc, case.says("typed\n").as_bytes()) else {
        return None;
    };
    let Ok(store) = load(alloc, files, &verified.code().declared.shape, limit) else {
        return None;
    };
    let lines = TypedLines::new(bytes);
    match Banks::opening(alloc, verified, store, day, lines) {
        Ok(banks) => Some(banks),
        Err(_) => None,
    }
}

/// Runs the code within the first budget, goes on with none, and then within what is left of the whole one.
fn in_parts(
    alloc: Global,
    verified: &Verified,
    banks: Banks<NdxTree>,
    first: u64,
    whole: u64,
) -> InParts
    requires { (w : World) × Begins verified.now w banks }
{
    let mut banks = banks;
    let before = run(alloc, verified, &mut banks, first);
    let between = resume(alloc, verified, &mut banks, 0);
    let left = whole.saturating_sub(before.steps);
    let after = resume(alloc, verified, &mut banks, left);
    InParts {
        before,
        between,
        after,
        banks,
    }
}

/// A case's run in parts; none where it isn't to be had.
fn parts_of(alloc: Global, case: RunCase<'_>, first: u64, whole: u64) -> Option<InParts> {
    let mut files = MemoryFiles::new(alloc, &[], WORKS_FOR_EVER);
    let verified = accepted(alloc, &mut files, case)?;
    let banks = begun(alloc, &mut files, &verified, case)?;
    Some(in_parts(alloc, &verified, banks, first, whole))
}

/// Whether the run was spent within its first budget and at once without one, and then took just the steps that were
/// left.
fn took_its_steps(parts: &InParts, first: u64, whole: u64) -> bool {
    let spent = parts.before.end == End::Spent && parts.before.steps <= first;
    let stayed = parts.between.end == End::Spent && parts.between.steps == 0;
    let left = whole.saturating_sub(parts.before.steps);
    spent && stayed && parts.after.end == End::Finished && parts.after.steps == left
}

/// Whether a case's run in parts is the whole one.
fn is_whole(alloc: Global, case: RunCase<'_>, first: u64, cost: u64) -> bool {
    let Some(parts) = parts_of(alloc, case, first, cost) else {
        return false;
    };
    took_its_steps(&parts, first, cost)
        && are_bytes(parts.banks.finish(alloc), case.says("rows\n").as_bytes())
}

/// Whether a case's run in parts is the whole one for each first budget below its whole cost.
fn goes_on(alloc: Global, case: RunCase<'_>) -> bool {
    let cost = case.number("each ", 0);
    for first in 0..cost {
        if !is_whole(alloc, case, first, cost) {
            return false;
        }
    }
    true
}

/// Whether a full table is full again, and nothing is added.
fn is_full_again(alloc: Global, case: RunCase<'_>) -> bool {
    let Some(parts) = parts_of(alloc, case, 100, 100) else {
        return false;
    };
    let end = End::Full(0);
    let store = parts.banks.store();
    parts.before == Outcome { end, steps: 3 }
        && parts.after == Outcome { end, steps: 0 }
        && store.is_open(1)
        && !store.is_open(2)
}

/// How long an index is, if it is open.
fn length_of(banks: &Banks<NdxTree>, table: u16, index: usize) -> Option<usize> {
    let keys = banks.open_keys(table, index)?;
    Some(keys.len())
}

/// Whether an index that was made anew on the way is open, and no other one.
fn lends_open_indexes(alloc: Global, case: RunCase<'_>) -> bool {
    match parts_of(alloc, case, 15, 23) {
        Some(parts) => {
            length_of(&parts.banks, 0, 0) == Some(3)
                && length_of(&parts.banks, 0, 1).is_none()
                && length_of(&parts.banks, 1, 0).is_none()
        }
        None => false,
    }
}

/// Whether a case runs in parts as it says.
pub fn runs_in_parts(alloc: Global, case: RunCase<'_>) -> bool {
    (!case.has("parts") || goes_on(alloc, case))
        && (!case.has("full again") || is_full_again(alloc, case))
        && (!case.has("lends") || lends_open_indexes(alloc, case))
}
