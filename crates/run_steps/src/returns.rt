//! The places behind calls that haven't returned.

ghost use Rattle.std.specs.Prelude.{◌≡◌, ◌<◌, ◌∷◌, [], drop, length, slice_get, unwrap_or};

use arrayvec::ArrayVec;
use std::marker::Model;

/// At most 20 return places, seen as their list, that of the last call first.
#[derive(Drop)]
pub struct ReturnPlaces {
    places: ArrayVec<usize, 20>,
}

impl Model for ReturnPlaces {
    ghost use Rattle.std.specs.Prelude.{List, ℕ, reverse};

    ghost Value = { List ℕ };

    ghost view = { λ r. reverse r.places.items };
}

impl ReturnPlaces {
    /// None.
    pub fn new() -> ReturnPlaces
        ensures { result ≡ [] }
    {
        ReturnPlaces {
            places: ArrayVec::new(),
        }
    }

    /// How many there are.
    pub fn len(&self) -> usize
        ensures { result ≡ length self.now }
    {
        self.places.len()
    }

    /// That of the last call; without one, the place that is handed in.
    pub fn last_or(&self, place: usize) -> usize
        ensures { result ≡ unwrap_or (slice_get self.now 0) place }
    {
        match self.places.as_slice() {
            [.., last] => *last,
            [] => place,
        }
    }

    /// One more, of a call.
    pub fn push(&mut self, place: usize)
        requires { length self.old < 20 }
        ensures { self.new ≡ place ∷ self.old }
    {
        self.places.push(place);
    }

    /// Without that of the last call, if there is one.
    pub fn pop(&mut self)
        ensures { self.new ≡ drop 1 self.old }
    {
        let _ = self.places.pop();
    }
}
