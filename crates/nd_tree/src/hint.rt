//! A place that is looked at first.
ghost use Rattle.std.specs.Prelude.{◌<◌};

use std::cell::Cell;
use std::marker::Model;

/// A place that is looked at first. Contracts see nothing of it.
#[derive(Drop)]
pub struct Hint {
    place: Cell<usize>,
}

impl Model for Hint {
    ghost Value = { Unit {0} };

    ghost view = { λ _. tt };
}

impl Hint {
    pub fn new() -> Hint {
        Hint {
            place: Cell::new(0),
        }
    }

    /// The place, where it is one of so many, and else the first.
    pub fn among(&self, n: usize) -> usize
        requires { 0 < n }
        ensures { result < n }
    {
        let place = self.place.get();
        if place < n { place } else { 0 }
    }

    pub fn set(&self, place: usize) {
        self.place.set(place);
    }
}
