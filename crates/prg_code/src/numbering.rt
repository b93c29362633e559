//! Numbers that are given at first use.

ghost use Rattle.std.specs.Prelude.{◌≡◌, ◌<◌, true, false, [], ◌∷◌, ◌++◌, Some, Err};
ghost use Rattle.std.specs.Prelude.{IfOk, IfSome, IfNone, OnOk, OnErr, slice_get, take, length};
ghost use Rattle.std.specs.List.{list_any};
ghost use Rattle.prg_code.specs.Numbers.{Grows, HasNumber};
ghost use Rattle.prg_code.specs.declared.fault.CompileError.TheVariants as error;
ghost use Rattle.prg_code.specs.declared.fault.CompileFaultKind.TheVariants as kind;

use crate::fault::{CompileError, CompileFaultKind};
use indexmap::IndexSet;
use std::alloc::Global;
use std::hash::Hash;
use std::marker::Model;

/// Items of which no two are equal, numbered from 0 in the order of their first use, at most so many; seen as their
/// list.
#[derive(Drop)]
pub struct Numbering<T: Eq + Hash + Drop, const MOST: u16> {
    items: IndexSet<T>,
}

impl<T: Eq + Hash + Drop, const MOST: u16> Model for Numbering<T, MOST> {
    ghost use Rattle.std.specs.Prelude.{List, ◌≤◌, length};

    ghost Value = { List T };

    ghost view = { λ n. n.items.keys };

    ghost invariant = { λ n. length n.items.keys ≤ MOST };
}

impl<T: Eq + Hash + Drop, const MOST: u16> Numbering<T, MOST> {
    /// No items.
    pub fn new(alloc: Global) -> Self
        ensures { result ≡ [] }
    {
        Numbering {
            items: IndexSet::new(alloc),
        }
    }

    /// The number of the item. It is added behind the others where none is equal to it; Limit where there is no room.
    pub fn number(&mut self, item: T) -> Result<u16, CompileError>
        // It is the item's number.
        ensures there { IfOk result (HasNumber T.eq self.new item) }
        ensures within { IfOk result (λ number. number < MOST) }
        // Those that were there keep their numbers.
        ensures grown { Grows self.old self.new }
        // One that is there isn't added.
        ensures once { list_any (T.eq item) self.old ≡ true → self.new ≡ self.old }
        // One that isn't there gets the next number.
        ensures next { OnOk result (list_any (T.eq item) self.old ≡ false → self.new ≡ self.old ++ item ∷ []) }
        // Limit comes only where all numbers are given to others.
        ensures full { result ≡ Err (error.Fault kind.Limit)
            → (length self.old ≡ MOST) × (list_any (T.eq item) self.old ≡ false) }
        ensures refused { OnErr result (self.new ≡ self.old) }
    {
        match self.find(&item) {
            Some(number) => Ok(number),
            None => self.add(item),
        }
    }

    /// The number of the item, if it has one.
    fn find(&self, item: &T) -> Option<u16>
        ensures there { IfSome result (HasNumber T.eq self.now item.now) }
        ensures within { IfSome result (λ number. number < MOST) }
        ensures met { IfSome result (λ _. list_any (T.eq item.now) self.now ≡ true) }
        ensures absent { IfNone result (list_any (T.eq item.now) self.now ≡ false) }
    {
        match self.items.get_index_of(item) {
            Some(number) => Some(number as u16),
            None => None,
        }
    }

    /// Adds an item that isn't there behind the others.
    fn add(&mut self, item: T) -> Result<u16, CompileError>
        requires { list_any (T.eq item) self.old ≡ false }
        ensures there { IfOk result (λ number. slice_get self.new number ≡ Some item) }
        ensures within { IfOk result (λ number. number < MOST) }
        ensures next { OnOk result (self.new ≡ self.old ++ item ∷ []) }
        ensures full { result ≡ Err (error.Fault kind.Limit) → length self.old ≡ MOST }
        ensures refused { OnErr result (self.new ≡ self.old) }
    {
        let number = self.items.len();
        if number >= usize::from(MOST) {
            return Err(CompileError::Fault(CompileFaultKind::Limit));
        }
        self.items.insert(item)?;
        Ok(number as u16)
    }

    /// The items by number.
    pub fn as_slice(&self) -> &[T]
        ensures { result.now ≡ self.now }
    {
        self.items.as_slice()
    }

    /// How many there are.
    pub fn len(&self) -> usize
        ensures { result ≡ length self.now }
    {
        self.items.len()
    }

    /// Leaves out the items from this number on.
    pub fn cut(&mut self, count: usize)
        ensures { self.new ≡ take count self.old }
    {
        self.items.truncate(count);
    }
}
