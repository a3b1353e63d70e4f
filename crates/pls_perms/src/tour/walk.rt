ghost use Rattle.std.specs.Prelude.{◌≡◌, ◌↔◌, ℕ, ◌+◌, ◌%◌, ◌<◌, ◌≤◌, ◌++◌, [], true, IsNone, IfSome, option_to_list, option_map, length, slice_index};
ghost use Rattle.pls_vectors.specs.Solution.{entry};
ghost use Rattle.pls_perms.specs.Tour.{IsWithinLimits, feasible, neighbours, tour_length, value};

use super::Tour;
use crate::pair::Pair;
use crate::sums;
use crate::sums::Sums;
use crate::walk::Walk;
use pls_vectors::{Sol, Vector};

/// The places of the most cities, and one after them.
const PLACES: usize = 257;

/// A walk over the neighbours of a feasible tour: the tour with its lengths, and the ends of the stretch that
/// is reversed in the neighbour given last.
#[derive(Clone, Copy, Debug)]
pub struct TourWalk {
    walk: Walk,
    /// The cities in the order of the tour, and then city 0 again.
    cities: [u8; PLACES],
}

impl Tour {
    ghost use Rattle.pls_perms.specs.TourWalk.{IsWalkOf, current, left};

    /// The walk over the neighbours of a feasible tour, at most 32,385, which has given none of them.
    pub fn walk(&self, sol: &Sol) -> TourWalk
        requires { feasible self.now sol.now ≡ true }
        ensures made { IsWalkOf self.now result }
        ensures left { left self.now result ≡ neighbours self.now sol.now }
        ensures few { length (neighbours self.now sol.now) ≤ 32385 }
    {
        TourWalk {
            walk: Walk {
                start: *sol,
                sums: self.lengths(sol),
                pair: Pair::start(1),
            },
            cities: self.cities_of(sol),
        }
    }

    /// The next neighbour and its value, or None where all were given.
    pub fn next(&self, walk: &mut TourWalk) -> Option<(Vector, Sol)>
        requires { IsWalkOf self.now walk.old }
        ensures made { IsWalkOf self.now walk.new }
        ensures step { left self.now walk.old ≡ option_to_list result ++ left self.now walk.new }
        ensures end { IsNone result ↔ (left self.now walk.old ≡ []) }
        ensures feasible { IfSome result (λ p. feasible self.now p.1 ≡ true) }
        ensures value { IfSome result (λ p. p.0 ≡ value self.now p.1) }
        ensures parts { IfSome result (λ p. length p.0 ≡ self.now.objectives) }
    {
        let Some(value) = self.next_value(walk) else {
            return None;
        };
        let mut sol = walk.walk.start;
        self.solution(walk, &mut sol);
        Some((value, sol))
    }

    /// The value of the next neighbour, or None where all were given. [`Tour::solution`] then writes the
    /// neighbour itself.
    pub fn next_value(&self, walk: &mut TourWalk) -> Option<Vector>
        requires { IsWalkOf self.now walk.old }
        ensures made { IsWalkOf self.now walk.new }
        ensures step { left self.now walk.old
            ≡ option_to_list (option_map (λ v. (v, current walk.new)) result) ++ left self.now walk.new }
        ensures end { IsNone result ↔ (left self.now walk.old ≡ []) }
        ensures feasible { IfSome result (λ v. feasible self.now (current walk.new) ≡ true) }
        ensures value { IfSome result (λ v. v ≡ value self.now (current walk.new)) }
        ensures parts { IfSome result (λ v. length v ≡ self.now.objectives) }
    {
        let Some(pair) = walk.walk.pair.next(self.size()) else {
            return None;
        };
        walk.walk.pair = pair;
        Some(sums::vector_of(&self.lengths_reversed(walk), self.objectives()))
    }

    /// Writes the neighbour whose value was given last over a solution; before the first one, the start.
    pub fn solution(&self, walk: &TourWalk, into: &mut Sol)
        requires { IsWalkOf self.now walk.now }
        ensures { into.new ≡ current walk.now }
    {
        *into = walk.walk.start;
        into.reverse(walk.walk.pair.first, walk.walk.pair.second);
    }

    /// The lengths with the stretch reversed: two edges come and two go.
    fn lengths_reversed(&self, walk: &TourWalk) -> Sums
        requires { IsWalkOf self.now walk.now }
        ensures value { (list : ℕ) → list < 4 → slice_index result list ≡ tour_length self.now (current walk.now) list }
        ensures limits { IsWithinLimits self.now }
    {
        let first = walk.walk.pair.first as usize;
        let last = walk.walk.pair.second as usize;
        let (before, begin) = (walk.cities[first - 1], walk.cities[first]);
        let (end, after) = (walk.cities[last], walk.cities[last + 1]);
        sums::changed(
            &walk.walk.sums,
            self.between(before, end),
            self.between(begin, after),
            self.between(before, begin),
            self.between(end, after),
        )
    }

    /// The cities of a feasible tour in order, and then city 0 again.
    fn cities_of(&self, sol: &Sol) -> [u8; PLACES]
        requires { feasible self.now sol.now ≡ true }
        ensures value { (i : ℕ) → i ≤ self.now.cities → slice_index result i ≡ entry sol.now (i % self.now.cities) }
        ensures stored { length sol.now.words ≡ 32 }
    {
        let mut cities = no_cities();
        for i in 0..sol.len() {
            cities[i as usize] = sol.entry(i);
        }
        cities
    }
}

/// City 0 at each place.
fn no_cities() -> [u8; PLACES]
    ensures { (i : ℕ) → slice_index result i ≡ 0 }
{
    [0; PLACES]
}
