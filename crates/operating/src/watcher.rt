//! Who is told how far a run has come.

ghost use Rattle.std.specs.Prelude.{◌≡◌};

/// Who is told how far a run has come.
pub trait Watcher {
    /// Whether anybody is to be told. If nobody is, the run is one part, and `hear` isn't called.
    fn is_watching(&self) -> bool;

    /// The run has taken steps of this cost, of a budget that it had at its beginning. Answers what its next part is to
    /// cost at most. A next step that is dearer is taken all the same, where the budget pays for it.
    fn hear(&mut self, steps: u64, budget: u64) -> u64;
}

/// Nobody is told, and the run is one part.
#[derive(Clone, Copy)]
pub struct Unwatched;

impl Watcher for Unwatched {
    fn is_watching(&self) -> bool {
        false
    }

    fn hear(&mut self, _steps: u64, budget: u64) -> u64
        ensures { result ≡ budget }
    {
        budget
    }
}
