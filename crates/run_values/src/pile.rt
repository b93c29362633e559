//! A stack with room for as many values as any code's stack holds.

ghost use Rattle.std.specs.Prelude.{◌≡◌, ◌<◌, ◌≤◌, [], ◌∷◌, length, IfOk, reverse, take, drop, slice_get, Some};

use std::alloc::{AllocError, Global};
use std::marker::Model;

/// The most values that any code's stack holds.
pub const STACK_LIMIT: usize = 64;

/// A stack with room for 64 values, seen as their list, the top first.
#[derive(Drop)]
pub struct Pile<T> {
    values: Vec<T>,
}

impl<T> Model for Pile<T> {
    ghost use Rattle.std.specs.Prelude.{List, reverse, ◌≤◌, vec_capacity};

    ghost Value = { List T };

    ghost view = { λ s. reverse s.values.items };

    ghost invariant = { λ s. 64 ≤ vec_capacity s.values };
}

impl<T> Pile<T> {
    /// No values, and room for 64.
    pub fn new(alloc: Global) -> Result<Pile<T>, AllocError>
        ensures { IfOk result (λ pile. pile ≡ []) }
    {
        Ok(Pile {
            values: Vec::with_capacity(alloc, STACK_LIMIT)?,
        })
    }

    /// How many values there are.
    pub fn len(&self) -> usize
        ensures { result ≡ length self.now }
    {
        self.values.len()
    }

    /// The values, the top last.
    pub fn values(&self) -> &[T]
        ensures { reverse result.now ≡ self.now }
    {
        self.values.as_slice()
    }

    /// So many values from the top, which are there, the top last.
    #[tactic(auto, using(crate::proofs::PileLists::behind))]
    pub fn top_values(&self, count: usize) -> &[T]
        requires { count ≤ length self.now }
        ensures { result.now ≡ reverse (take count self.now) }
    {
        let (_, top) = self.values.as_slice().split_at(self.values.len() - count);
        top
    }

    /// Takes the top value, which is there.
    pub fn pop(&mut self) -> T
        requires { 0 < length self.old }
        ensures { self.old ≡ result ∷ self.new }
    {
        match self.values.pop() {
            Some(value) => value,
            None => unreachable!(),
        }
    }

    /// The top value, which is there.
    pub fn top(&self) -> &T
        requires { 0 < length self.now }
        ensures { slice_get self.now 0 ≡ Some result.now }
    {
        match self.values.last() {
            Some(value) => value,
            None => unreachable!(),
        }
    }
}

impl<T: Drop> Pile<T> {
    /// Takes so many values off the top, which are there.
    pub fn drop_top(&mut self, count: usize)
        requires { count ≤ length self.old }
        ensures { self.new ≡ drop count self.old }
    {
        self.values.truncate(self.values.len() - count);
    }

    /// Puts a value on top. It takes no memory.
    pub fn push(&mut self, value: T)
        requires { length self.old < 64 }
        ensures { self.new ≡ value ∷ self.old }
    {
        match self.values.push(value) {
            Ok(()) => {}
            Err(_) => unreachable!(),
        }
    }
}
