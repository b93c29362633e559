//! Tests of how many values are on the stack.

ghost use Rattle.std.specs.Prelude.{◌≡◌, nat_lt};
ghost use Rattle.code_rules.specs.Signature.{signature};
ghost use Rattle.code_rules.specs.Rules.{height_after};

use crate::Signature;
use code_items::{Declared, Instr};

/// Whether there are fewer values than it takes.
pub fn is_under(height: usize, instr: Instr) -> bool
    ensures { result ≡ nat_lt height (signature instr).taken }
{
    height < Signature::of(instr).taken
}

/// Whether there are more values than the declared bound afterwards.
pub fn is_over(declared: &Declared, height: usize, instr: Instr) -> bool
    ensures { result ≡ nat_lt declared.now.stack_bound (height_after height instr) }
{
    let signature = Signature::of(instr);
    let left = height.saturating_sub(signature.taken);
    u128::from(declared.stack_bound) < left as u128 + signature.adds as u128
}
