//! Rules on the stack and the slots that an instruction finds.

ghost use Rattle.std.specs.Prelude.{◌≡◌, slice_get};
ghost use Rattle.code_rules.specs.Rules.{loads_other as loads_other_of, loads_free as loads_free_of};
ghost use Rattle.code_rules.specs.Rules.{under_fails as under_fails_of, over_fails as over_fails_of};
ghost use Rattle.code_rules.specs.Rules.{leaves_values as leaves_values_of, kind_fails as kind_fails_of};
ghost use Rattle.code_rules.specs.Rules.{empty_fails as empty_fails_of};
ghost use Rattle.xverify.specs.Told.{place_told, IsPlace};

use crate::covering::{KnownPart, some_fails};
use crate::here::Here;
use code_items::{Instr, State, ValueInstr};
use code_rules::Signature;
use code_rules::heights::{is_over, is_under};
use code_rules::kinds::wants;
use code_rules::slots::{has_other, is_free};
use xvalue::Kind;

/// What is known of a slot, if it is there.
pub fn kind_at(slots: &[Option<Kind>], slot: usize) -> Option<Option<Kind>>
    ensures { result ≡ slice_get slots.now slot }
{
    match slots.get(slot) {
        Some(kind) => Some(*kind),
        None => None,
    }
}

fn loads_other(state: &State, instr: Instr) -> bool
    ensures { result ≡ loads_other_of state.now instr }
{
    match instr {
        Instr::Values(ValueInstr::Load(kind, slot)) => {
            has_other(kind, kind_at(state.slots.kinds(), usize::from(slot)))
        }
        _ => false,
    }
}

/// Whether a slot is loaded that may be unset.
pub fn loads_free(state: &State, instr: Instr) -> bool
    ensures { result ≡ loads_free_of state.now instr }
{
    match instr {
        Instr::Values(ValueInstr::Load(_, slot)) => is_free(kind_at(
            state.slots.kinds(),
            usize::from(slot),
        )),
        _ => false,
    }
}

/// Whether a value taken or a slot loaded has another kind, or a slot isn't covered.
pub fn kind_fails(h: &Here) -> bool
    requires { IsPlace h.now }
    ensures { result ≡ kind_fails_of h.now.code.now (place_told h.now) }
{
    h.before
        .stack
        .clashes(wants(&h.code.declared, &h.before.desk, h.instr))
        || loads_other(h.before, h.instr)
        || some_fails(KnownPart::Slots, h)
}

/// Whether there are fewer values than are taken.
pub fn under_fails(h: &Here) -> bool
    ensures { result ≡ under_fails_of (place_told h.now) }
{
    is_under(h.before.stack.len(), h.instr)
}

/// Whether the stack is higher than the bound afterwards.
pub fn over_fails(h: &Here) -> bool
    ensures { result ≡ over_fails_of h.now.code.now (place_told h.now) }
{
    is_over(&h.code.declared, h.before.stack.len(), h.instr)
}

fn leaves_values(h: &Here) -> bool
    ensures { result ≡ leaves_values_of (place_told h.now) }
{
    let signature = Signature::of(h.instr);
    signature.empties && !(h.before.stack.len().saturating_sub(signature.taken) == 0)
}

/// Whether values are left where none may be, or the stack isn't covered.
pub fn empty_fails(h: &Here) -> bool
    requires { IsPlace h.now }
    ensures { result ≡ empty_fails_of h.now.code.now (place_told h.now) }
{
    leaves_values(h) || some_fails(KnownPart::Stack, h)
}
