//! Values that covered lately.
ghost use Rattle.std.specs.Prelude.{◌≡◌, Bool, List, [], ℤ, IsTrue};
ghost use Rattle.std.specs.List.{list_any};
ghost use Rattle.pls_archive.specs.Lists.{Every};
ghost use Rattle.pls_vectors.specs.Dominance.{weakly_dominates};

use crate::boxes::covers;
use pls_vectors::Vector;
use std::marker::Model;

/// How many values are remembered.
const MOST: usize = 8;

/// The values that covered last, up to eight, of which a further one takes the place of the oldest.
#[derive(Drop)]
pub struct Recent {
    len: usize,
    oldest: usize,
    values: [Vector; MOST],
}

impl Model for Recent {
    ghost use Rattle.std.specs.Prelude.{◌≤◌, List, ℤ, take};

    ghost Value = { List (List ℤ) };

    ghost view = { λ a. take a.len a.values };

    ghost invariant = { λ a. a.len ≤ 8 };
}

impl Recent {
    pub fn new() -> Recent
        ensures { result ≡ [] }
    {
        let zero = Vector::from_places(2, [0; 4]);
        Recent {
            len: 0,
            oldest: 0,
            values: [zero; MOST],
        }
    }

    /// Whether a remembered value covers this one.
    pub fn covers(&self, value: &Vector) -> bool
        ensures { result ≡ list_any (λ w. weakly_dominates w value.now) self.now }
    {
        is_covered(&self.values[..self.len], value)
    }

    /// Remembers a value.
    pub fn remember(&mut self, value: &Vector)
        ensures { (test : List ℤ → Bool) → Every (λ w. IsTrue (test w)) self.old → IsTrue (test value.now) → Every (λ w. IsTrue (test w)) self.new }
    {
        if self.len < MOST {
            self.values[self.len] = *value;
            self.len += 1;
        } else {
            let place = if self.oldest < MOST { self.oldest } else { 0 };
            self.values[place] = *value;
            self.oldest = place + 1;
        }
    }
}

/// Whether one of the values covers this one.
fn is_covered(values: &[Vector], value: &Vector) -> bool
    ensures { result ≡ list_any (λ w. weakly_dominates w value.now) values.now }
{
    values.iter().any(|w| covers(w, value))
}
