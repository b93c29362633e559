//! Kinds of values on a stack.

ghost use Rattle.std.specs.Prelude.{◌≡◌, [], ◌∷◌};
ghost use Rattle.xvalue.specs.declared.kind.Kind.TheVariants.{Logical as OfLogical};
ghost use Rattle.code_items.specs.Kinds.{same_kinds};

use run_values::Pile;
use xvalue::Kind;

/// Whether there is just one kind, and it is that of truth values.
#[tactic(auto, using(crate::proofs::Held::one_truth, crate::proofs::Held::not_one))]
pub fn is_truth(stack: &Pile<Kind>) -> bool
    ensures { result ≡ same_kinds (OfLogical ∷ []) stack.now }
{
    stack.len() == 1 && stack.top().is(Kind::Logical)
}
