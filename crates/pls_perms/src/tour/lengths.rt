ghost use Rattle.std.specs.Prelude.{◌≡◌, ◌≢◌, ℕ, ◌<◌, true, length, slice_index};
ghost use Rattle.pls_perms.specs.Tour.{IsWithinLimits, edge_between, feasible, tour_length, value};

use super::{Tour, places};
use crate::sums::{MOST_OBJECTIVES, Sums};
use crate::{permutation, sums};
use pls_vectors::{Sol, Vector};

impl Tour {
    /// Whether the solution is a permutation of this instance's cities with city 0 first, and no other bit.
    pub fn is_feasible(&self, sol: &Sol) -> bool
        ensures { result ≡ feasible self.now sol.now }
    {
        permutation::is_permutation(self.size(), sol) && sol.entry(0) == 0
    }

    /// The value of a feasible tour: for each list minus its length.
    pub fn value(&self, sol: &Sol) -> Vector
        requires { feasible self.now sol.now ≡ true }
        ensures value { result ≡ value self.now sol.now }
        ensures parts { length result ≡ self.now.objectives }
    {
        sums::vector_of(&self.lengths(sol), self.objectives())
    }

    /// The length of a feasible tour in each list.
    pub(super) fn lengths(&self, sol: &Sol) -> Sums
        requires { feasible self.now sol.now ≡ true }
        ensures value { (list : ℕ) → list < 4 → slice_index result list ≡ tour_length self.now sol.now list }
        ensures limits { IsWithinLimits self.now }
    {
        let cities = self.size();
        let mut lengths = [0; MOST_OBJECTIVES];
        for i in 0..cities {
            let city = sol.entry(i);
            let next = sol.entry((i + 1) % cities);
            sums::add(&mut lengths, self.between(city, next));
        }
        lengths
    }

    /// What the edge between two cities costs in each list.
    pub(super) fn between(&self, a: u8, b: u8) -> &Sums
        requires a_in { a < self.now.cities }
        requires b_in { b < self.now.cities }
        requires apart { a ≢ b }
        ensures value { (list : ℕ) → list < 4 → slice_index result.now list ≡ edge_between self.now list a b }
        ensures limits { IsWithinLimits self.now }
    {
        self.costs(places::place_of(self.size(), a, b))
    }
}
