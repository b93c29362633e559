//! Where a procedure returns.

ghost use Rattle.std.specs.Prelude.{◌≡◌, [], ◌∷◌, ◌++◌, false, OnOk, if◌then◌else◌};
ghost use Rattle.code_items.specs.declared.instr.FlowInstr.TheVariants.{End};
ghost use Rattle.code_items.specs.declared.instr.Instr.TheVariants.{Flow};
ghost use Rattle.prg_code.specs.Growth.{drafts_of};
ghost use Rattle.prg_code.specs.declared.block.Draft.TheVariants as draft;

use code_items::State;
use prg_code::{CompileError, CompileFaultKind, Work, is_selection_same, merged};

/// What is known where the procedure returns, when it does so here too. Merge where another area is selected.
fn exit_with(work: &Work) -> Result<State, CompileError> {
    match &work.exit {
        Some(exit) => {
            if !is_selection_same(exit, &work.block.state) {
                return Err(CompileError::Fault(CompileFaultKind::Merge));
            }
            Ok(merged(work.alloc, exit, &work.block.state)?)
        }
        None => Ok(work.block.state.copied(work.alloc)?),
    }
}

/// `RETURN`: in the main procedure an END.
pub(crate) fn put_return(work: &mut Work) -> Result<(), CompileError>
    ensures put { OnOk result (drafts_of work.new.block ≡ drafts_of work.old.block
        ++ (if work.old.is_main then draft.Instr (Flow End) else draft.Return) ∷ []) }
    ensures ended { OnOk result (work.new.block.reached ≡ false) }
{
    if work.is_main {
        return work.block.put_end();
    }
    let exit = exit_with(work)?;
    work.exit = Some(exit);
    work.block.put_return()
}
