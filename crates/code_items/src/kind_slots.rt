//! What is known of the slots.

ghost use Rattle.std.specs.Prelude.{◌≡◌, ◌<◌, length, IfOk, slice_get, slice_set, Some};
ghost use Rattle.std.specs.List.{list_all, zip};
ghost use Rattle.code_items.specs.Kinds.{slot_covered, slots_covered};

use std::alloc::{AllocError, Global};
use std::marker::Model;
use xvalue::Kind;

/// The kind of each slot's value, or none where the slot may be unset or of any kind.
#[derive(Drop)]
pub struct KindSlots {
    kinds: Vec<Option<Kind>>,
}

impl Model for KindSlots {
    ghost use Rattle.std.specs.Prelude.{List, Option};
    ghost use Rattle.xvalue.specs.declared.kind.Kind.{Kind as OneKind};

    ghost Value = { List (Option OneKind) };

    ghost view = { λ s. s.kinds.items };
}

impl KindSlots {
    /// These kinds, slot by slot.
    pub fn of(kinds: Vec<Option<Kind>>) -> KindSlots
        ensures { result ≡ kinds.items }
    {
        KindSlots { kinds }
    }

    /// The kinds, slot by slot.
    pub fn kinds(&self) -> &[Option<Kind>]
        ensures { result.now ≡ self.now }
    {
        self.kinds.as_slice()
    }

    /// How many slots there are.
    pub fn len(&self) -> usize
        ensures { result ≡ length self.now }
    {
        self.kinds.len()
    }

    /// What is known of the slot, which is there.
    pub fn get(&self, slot: usize) -> Option<Kind>
        requires { slot < length self.now }
        ensures { slice_get self.now slot ≡ Some result }
    {
        self.kinds[slot]
    }

    /// Sets what is known of the slot, if it is there.
    pub fn set(&mut self, slot: usize, kind: Option<Kind>)
        ensures { self.new ≡ slice_set self.old slot kind }
    {
        if slot < self.kinds.len() {
            self.kinds[slot] = kind;
        }
    }

    /// Whether each slot of the map is free or of the kind known here.
    #[tactic(auto, using(crate::proofs::PairLists::all_along, crate::proofs::PairLists::not_along))]
    pub fn is_covered_by(&self, map: &KindSlots) -> bool
        ensures { result ≡ slots_covered map.now self.now }
    {
        map.kinds.len() == self.kinds.len()
            && all_covered(map.kinds.as_slice(), self.kinds.as_slice())
    }

    /// The same once more.
    pub fn copied(&self, alloc: Global) -> Result<KindSlots, AllocError>
        ensures { IfOk result (λ copy. copy ≡ self.now) }
    {
        Ok(KindSlots {
            kinds: Vec::from_slice(alloc, self.kinds.as_slice())?,
        })
    }
}

fn is_slot_covered(map: Option<Kind>, there: Option<Kind>) -> bool
    ensures { result ≡ slot_covered (map, there) }
{
    match (map, there) {
        (None, _) => true,
        (Some(_), None) => false,
        (Some(kind), Some(other)) => kind.is(other),
    }
}

fn all_covered(map: &[Option<Kind>], there: &[Option<Kind>]) -> bool
    ensures { result ≡ list_all slot_covered (zip map.now there.now) }
{
    map.iter()
        .zip(there.iter())
        .all(|(one, two)| is_slot_covered(*one, *two))
}
