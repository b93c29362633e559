//! Tests of what is known of a slot: nothing where there is none, no kind where it is free.

ghost use Rattle.std.specs.Prelude.{◌≡◌, ◌||◌};
ghost use Rattle.code_rules.specs.Rules.{has_other as has_other_of, is_free as is_free_of};

use xvalue::Kind;

/// Whether the slot holds another kind than this one.
pub fn has_other(kind: Kind, slot: Option<Option<Kind>>) -> bool
    ensures { result ≡ has_other_of kind slot }
{
    match slot {
        Some(Some(there)) => !there.is(kind),
        _ => false,
    }
}

/// Whether the slot is there and is free.
pub fn is_free(slot: Option<Option<Kind>>) -> bool
    ensures { result ≡ is_free_of slot }
{
    matches!(slot, Some(None))
}

/// Whether the slot is there and doesn't hold this kind.
pub fn lacks(kind: Kind, slot: Option<Option<Kind>>) -> bool
    ensures { result ≡ (is_free_of slot || has_other_of kind slot) }
{
    is_free(slot) || has_other(kind, slot)
}
