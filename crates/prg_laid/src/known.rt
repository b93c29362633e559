//! What is known before the places of a code, the same only once.

ghost use Rattle.std.specs.Prelude.{◌≡◌, ◌∷◌, ◌++◌, [], true, List, IfOk, IfSome, OnOk, Some, slice_get};
ghost use Rattle.code_items.specs.declared.state.State.{State as Known};

use code_items::State;
use prg_code::is_state_same;
use std::alloc::{AllocError, Global};
use std::marker::Model;
use xvalue::Kind;

/// How many of the states that were kept last are looked through for an equal one.
const NEAR: usize = 32;

/// What is known before each of the first places of a code, seen as the list of these states. Equal states near each
/// other are kept once, since an instruction changes little of what is known.
#[derive(Drop)]
pub struct KnownStates {
    /// The states that are kept.
    kept: Vec<State>,
    /// The number of each place's state among them, from 0.
    numbers: Vec<usize>,
}

impl Model for KnownStates {
    ghost use Rattle.std.specs.Prelude.{List, ◌<◌, length};
    ghost use Rattle.std.specs.List.{All};
    ghost use Rattle.code_items.specs.declared.state.State.{State as Known};
    ghost use Rattle.prg_laid.specs.ByNumber.{by_number};

    ghost Value = { List Known };

    ghost view = { λ s. by_number s.kept.items s.numbers.items };

    ghost invariant = { λ s. All (λ number. number < length s.kept.items) s.numbers.items };
}

fn are_same_kinds(one: &[Kind], two: &[Kind]) -> bool
    ensures { result ≡ true → one.now ≡ two.now }
{
    let Some((a, others)) = one.split_first() else {
        return two.is_empty();
    };
    let Some((b, more)) = two.split_first() else {
        return false;
    };
    *a == *b && are_same_kinds(others, more)
}

/// Whether both are equal.
fn is_same(one: &State, two: &State) -> bool
    ensures { result ≡ true → one.now ≡ two.now }
{
    are_same_kinds(one.stack.kinds(), two.stack.kinds()) && is_state_same(one, two)
}

/// The number of an equal state among the last ones.
fn number_of(kept: &[State], state: &State) -> Option<usize>
    ensures { IfSome result (λ number. slice_get kept.now number ≡ Some state.now) }
{
    let mut number = kept.len();
    for _ in 0..NEAR {
        number = number.saturating_sub(1);
        let Some(near) = kept.get(number) else {
            return None;
        };
        if is_same(near, state) {
            return Some(number);
        }
    }
    None
}

/// The number of the state, which is kept behind the others where no equal one is among the last ones.
fn kept_number(kept: &mut Vec<State>, state: State) -> Result<usize, AllocError>
    ensures there { IfOk result (λ number. slice_get kept.new.items number ≡ Some state) }
    ensures grown { (more : List Known) × (kept.new.items ≡ kept.old.items ++ more) }
{
    if let Some(number) = number_of(kept, &state) {
        return Ok(number);
    }
    let number = kept.len();
    kept.push(state)?;
    Ok(number)
}

impl KnownStates {
    /// No places.
    pub fn new(alloc: Global) -> KnownStates
        ensures { result ≡ [] }
    {
        KnownStates {
            kept: Vec::new(alloc),
            numbers: Vec::new(alloc),
        }
    }

    /// One more place, before which this is known.
    pub fn push(&mut self, state: State) -> Result<(), AllocError>
        ensures { OnOk result (self.new ≡ self.old ++ state ∷ []) }
    {
        let number = kept_number(&mut self.kept, state)?;
        self.numbers.push(number)?;
        Ok(())
    }

    /// What is known before the place, if it is one of the first ones.
    pub fn get(&self, place: usize) -> Option<&State>
        ensures { IfSome result (λ state. slice_get self.now place ≡ Some state.now) }
    {
        let Some(number) = self.numbers.get(place) else {
            return None;
        };
        let Some(state) = self.kept.get(*number) else {
            return None;
        };
        Some(state)
    }
}
