//! The kinds of the values on a stack.

ghost use Rattle.std.specs.Prelude.{◌≡◌, [], ◌∷◌, drop, length, IfOk, OnOk, OnErr, reverse};
ghost use Rattle.std.specs.List.{list_any, list_all, zip};
ghost use Rattle.code_items.specs.Kinds.{clashes, other_kind, kinds_covered, same_kinds, same_pair};

use std::alloc::{AllocError, Global};
use std::marker::Model;
use xvalue::Kind;

/// Kinds of values on a stack, seen as their list, the top first.
#[derive(Drop)]
pub struct KindStack {
    kinds: Vec<Kind>,
}

impl Model for KindStack {
    ghost use Rattle.std.specs.Prelude.{List, reverse};
    ghost use Rattle.xvalue.specs.declared.kind.Kind.{Kind as OneKind};

    ghost Value = { List OneKind };

    ghost view = { λ s. reverse s.kinds.items };
}

impl KindStack {
    /// These kinds, the top last.
    pub fn of(kinds: Vec<Kind>) -> KindStack
        ensures { result ≡ reverse kinds.items }
    {
        KindStack { kinds }
    }

    /// The kinds, the top last.
    pub fn kinds(&self) -> &[Kind]
        ensures { reverse result.now ≡ self.now }
    {
        self.kinds.as_slice()
    }

    /// How many there are.
    pub fn len(&self) -> usize
        ensures { result ≡ length self.now }
    {
        self.kinds.len()
    }

    /// Puts a kind on top. Where memory is refused, the stack is as it was.
    pub fn push(&mut self, kind: Kind) -> Result<(), AllocError>
        ensures pushed { OnOk result (self.new ≡ kind ∷ self.old) }
        ensures refused { OnErr result (self.new ≡ self.old) }
    {
        self.kinds.push(kind)?;
        Ok(())
    }

    /// Takes this many off the top, or all.
    pub fn drop_top(&mut self, count: usize)
        ensures { self.new ≡ drop count self.old }
    {
        for _ in 0..count {
            let _ = self.kinds.pop();
        }
    }

    /// Whether one of the kinds that are there, from the top, is another than wanted; that of the top is wanted last.
    pub fn clashes(&self, wanted: &[Kind]) -> bool
        ensures { result ≡ clashes (reverse wanted.now) self.now }
    {
        kinds_clash(self.kinds.as_slice(), wanted)
    }

    /// Whether the map's kinds are these with so many more on top, of which nothing is known.
    #[tactic(auto, using(crate::proofs::PairLists::covered_below, crate::proofs::PairLists::not_covered_below))]
    pub fn is_covered_by(&self, map: &KindStack, unknown: usize) -> bool
        ensures { result ≡ kinds_covered unknown map.now self.now }
    {
        if map.kinds.len() < unknown {
            return false;
        }
        let known = map.kinds.len() - unknown;
        all_same(&map.kinds.as_slice()[..known], self.kinds.as_slice())
    }

    /// Whether there is just one, of this kind.
    pub fn is_one(&self, kind: Kind) -> bool
        ensures { result ≡ same_kinds (kind ∷ []) self.now }
    {
        all_same(&[kind], self.kinds.as_slice())
    }

    /// The same kinds once more.
    pub fn copied(&self, alloc: Global) -> Result<KindStack, AllocError>
        ensures { IfOk result (λ copy. copy ≡ self.now) }
    {
        Ok(KindStack {
            kinds: Vec::from_slice(alloc, self.kinds.as_slice())?,
        })
    }
}

/// Whether one of the kinds that are there, from the top, is another than wanted. The top stands last in both.
#[tactic(auto, using(crate::proofs::PairLists::any_other))]
pub fn kinds_clash(kinds: &[Kind], wanted: &[Kind]) -> bool
    ensures { result ≡ clashes (reverse wanted.now) (reverse kinds.now) }
{
    other_from_end(kinds, wanted)
}

fn other_from_end(kinds: &[Kind], wanted: &[Kind]) -> bool
    ensures { result ≡ list_any other_kind (zip (reverse kinds.now) (reverse wanted.now)) }
{
    kinds
        .iter()
        .rev()
        .zip(wanted.iter().rev())
        .any(|(kind, want)| !kind.is(*want))
}

#[tactic(auto, using(crate::proofs::PairLists::all_same_back, crate::proofs::PairLists::not_same_back))]
fn all_same(one: &[Kind], two: &[Kind]) -> bool
    ensures { result ≡ same_kinds (reverse one.now) (reverse two.now) }
{
    one.len() == two.len() && same_from_end(one, two)
}

fn same_from_end(one: &[Kind], two: &[Kind]) -> bool
    ensures { result ≡ list_all same_pair (zip (reverse one.now) (reverse two.now)) }
{
    one.iter()
        .rev()
        .zip(two.iter().rev())
        .all(|(a, b)| a.is(*b))
}
