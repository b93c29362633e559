//! Ways through commands.

ghost use Rattle.std.specs.Prelude.{◌≡◌};
ghost use Rattle.prg_commands.specs.Commands as spec;

/// The labels to which LOOP and EXIT of the innermost loop lead.
#[derive(Clone, Copy)]
pub struct Leaps {
    pub again: usize,
    pub out: usize,
}

/// Whether the end of commands is reached, and whether a LOOP in them is.
#[derive(Clone, Copy)]
pub struct Way {
    pub on: bool,
    pub again: bool,
}

impl Way {
    /// Commands whose end is reached.
    pub fn through() -> Way
        ensures { result ≡ spec.through }
    {
        Way {
            on: true,
            again: false,
        }
    }

    /// Commands whose end isn't reached.
    pub fn stopped(again: bool) -> Way
        ensures { result ≡ spec.stopped again }
    {
        Way { on: false, again }
    }

    /// One behind the other.
    pub fn then(self, next: Way) -> Way
        ensures { result ≡ spec.then_way self next }
    {
        Way {
            on: next.on,
            again: self.again || next.again,
        }
    }

    /// Either of two.
    pub fn or(self, other: Way) -> Way
        ensures { result ≡ spec.either_way self other }
    {
        Way {
            on: self.on || other.on,
            again: self.again || other.again,
        }
    }
}
