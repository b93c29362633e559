//! The kinds of arguments.

ghost use Rattle.std.specs.Prelude.{◌≡◌, ◌<◌, ◌≤◌, [], ◌∷◌, ◌++◌, length};

use std::marker::Model;
use xvalue::Kind;

/// The most arguments that a function takes.
pub const MOST_ARGUMENTS: usize = 4;

/// The kinds of arguments, at most four, seen as their list.
#[derive(Drop)]
pub struct Kinds {
    kinds: [Kind; MOST_ARGUMENTS],
    count: usize,
}

impl Model for Kinds {
    ghost use Rattle.std.specs.Prelude.{List, ◌≡◌, ◌≤◌, length, take};
    ghost use Rattle.xvalue.specs.declared.kind.Kind.{Kind as AnyKind};

    ghost Value = { List AnyKind };

    ghost view = { λ s. take s.count s.kinds };

    ghost invariant = { λ s. (s.count ≤ 4) × (length s.kinds ≡ 4) };
}

impl Kinds {
    /// No arguments.
    pub fn new() -> Kinds
        ensures { result ≡ [] }
    {
        Kinds {
            kinds: [Kind::Number; MOST_ARGUMENTS],
            count: 0,
        }
    }

    /// How many there are.
    pub fn len(&self) -> usize
        ensures { result ≡ length self.now }
    {
        self.count
    }

    /// One more.
    pub fn push(&mut self, kind: Kind)
        requires { length self.old < 4 }
        ensures { self.new ≡ self.old ++ kind ∷ [] }
    {
        self.kinds[self.count] = kind;
        self.count += 1;
    }

    /// The kinds in their order.
    pub fn as_slice(&self) -> &[Kind]
        ensures { result.now ≡ self.now }
    {
        &self.kinds[..self.count]
    }
}
