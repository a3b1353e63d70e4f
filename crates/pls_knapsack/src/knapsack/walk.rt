ghost use Rattle.std.specs.Prelude.{◌≡◌, ◌↔◌, ◌+◌, ◌<◌, ◌≤◌, ◌++◌, [], true, false, IsNone, IfSome, IfNone, option_to_list, option_map, length, if◌then◌else◌};
ghost use Rattle.pls_vectors.specs.Solution.{chosen, with_item, no_items};
ghost use Rattle.pls_knapsack.specs.Instance.{IsWithinLimits, feasible, value};
ghost use Rattle.pls_knapsack.specs.Neighbours.{flipped, neighbours, point, points};

use super::tally::Tally;
use super::{Knapsack, amounts};
use pls_vectors::{Sol, Vector};

/// A walk over the neighbours of a feasible choice: which flips and exchanges are still to be tried,
/// with the sums of the choice, and those without the item that the exchanges take out. It remembers the
/// neighbour that it gave last.
#[derive(Clone, Copy, Debug)]
pub struct Walk {
    start: Tally,
    flip: u16,
    reduced: Tally,
    put: u16,
    take: u16,
    /// The item in which the neighbour given last differs from the start, or from the reduced choice.
    item: u16,
    is_flip: bool,
}

impl Knapsack {
    ghost use Rattle.pls_knapsack.specs.Walk.{IsTally, IsWalkOf, current, left, flips_left, exchanges_left};

    /// The walk over the neighbours of a feasible choice, at most 16,640, which has given none of them.
    pub fn walk(&self, sol: &Sol) -> Walk
        requires { feasible self.now sol.now ≡ true }
        ensures made { IsWalkOf self.now result }
        ensures left { left self.now result ≡ neighbours self.now sol.now }
        ensures few { length (neighbours self.now sol.now) ≤ 16640 }
    {
        let start = self.tally(sol);
        let reduced = start;
        Walk {
            start,
            flip: 0,
            reduced,
            put: self.size(),
            take: 0,
            item: 0,
            is_flip: true,
        }
    }

    /// The next neighbour and its value, or None where all were given.
    pub fn next(&self, walk: &mut Walk) -> Option<(Vector, Sol)>
        requires { IsWalkOf self.now walk.old }
        ensures made { IsWalkOf self.now walk.new }
        ensures step { left self.now walk.old ≡ option_to_list result ++ left self.now walk.new }
        ensures end { IsNone result ↔ (left self.now walk.old ≡ []) }
        ensures feasible { IfSome result (λ p. feasible self.now p.1 ≡ true) }
        ensures value { IfSome result (λ p. p.0 ≡ value self.now p.1) }
        ensures parts { IfSome result (λ p. length p.0 ≡ self.now.objectives) }
    {
        let Some(value) = self.next_value(walk) else {
            return None;
        };
        let mut sol = Sol::bits(self.size());
        self.solution(walk, &mut sol);
        Some((value, sol))
    }

    /// The value of the next neighbour, or None where all were given. [`Knapsack::solution`] then writes the
    /// neighbour itself.
    pub fn next_value(&self, walk: &mut Walk) -> Option<Vector>
        requires { IsWalkOf self.now walk.old }
        ensures made { IsWalkOf self.now walk.new }
        ensures step { left self.now walk.old
            ≡ option_to_list (option_map (λ v. (v, current walk.new)) result) ++ left self.now walk.new }
        ensures end { IsNone result ↔ (left self.now walk.old ≡ []) }
        ensures feasible { IfSome result (λ v. feasible self.now (current walk.new) ≡ true) }
        ensures value { IfSome result (λ v. v ≡ value self.now (current walk.new)) }
        ensures parts { IfSome result (λ v. length v ≡ self.now.objectives) }
    {
        let Some((is_flip, item)) = self.find(walk) else {
            return None;
        };
        walk.is_flip = is_flip;
        walk.item = item;
        let tally = if is_flip { &walk.start } else { &walk.reduced };
        let values = self.values_flipped(tally, item);
        Some(amounts::vector_of(&values, self.objectives()))
    }

    /// Writes the neighbour whose value was given last over a choice; before the first one, a choice of no meaning.
    pub fn solution(&self, walk: &Walk, into: &mut Sol)
        requires { IsWalkOf self.now walk.now }
        ensures { into.new ≡ current walk.now }
    {
        let base = if walk.is_flip {
            &walk.start.sol
        } else {
            &walk.reduced.sol
        };
        *into = *base;
        into.set_bit(walk.item, !base.bit(walk.item));
    }

    /// The item of the next feasible flip of the start, or else of the reduced choice, and whether it is of the start.
    fn find(&self, walk: &mut Walk) -> Option<(bool, u16)>
        requires { IsWalkOf self.now walk.old }
        ensures made { IsWalkOf self.now walk.new }
        ensures item_in { IfSome result (λ found. found.1 < self.now.items) }
        ensures feasible { IfSome result (λ found. feasible self.now (flipped (if found.0 then walk.new.start.sol else walk.new.reduced.sol) found.1) ≡ true) }
        ensures step { left self.now walk.old
            ≡ option_to_list (option_map (λ found. point self.now (flipped (if found.0 then walk.new.start.sol else walk.new.reduced.sol) found.1)) result)
            ++ left self.now walk.new }
        ensures end { IfNone result (left self.now walk.new ≡ []) }
    {
        match self.find_flip(walk) {
            Some(item) => Some((true, item)),
            None => match self.find_exchange(walk) {
                Some(item) => Some((false, item)),
                None => None,
            },
        }
    }

    /// The item of the next feasible flip.
    fn find_flip(&self, walk: &mut Walk) -> Option<u16>
        requires { IsWalkOf self.now walk.old }
        ensures made { IsWalkOf self.now walk.new }
        ensures item_in { IfSome result (λ item. item < self.now.items) }
        ensures feasible { IfSome result (λ item. feasible self.now (flipped walk.new.start.sol item) ≡ true) }
        ensures step { points self.now (flips_left self.now walk.old)
            ≡ option_to_list (option_map (λ item. point self.now (flipped walk.new.start.sol item)) result)
            ++ points self.now (flips_left self.now walk.new) }
        ensures end { IfNone result (flips_left self.now walk.new ≡ []) }
        ensures exchanges { exchanges_left self.now walk.new ≡ exchanges_left self.now walk.old }
    {
        while walk.flip < self.items {
            let item = walk.flip;
            walk.flip += 1;
            if self.can_flip(&walk.start, item) {
                return Some(item);
            }
        }
        None
    }

    /// Whether the choice with an item flipped is feasible.
    fn can_flip(&self, tally: &Tally, item: u16) -> bool
        requires limits { IsWithinLimits self.now }
        requires tally { IsTally self.now tally.now }
        requires item_in { item < self.now.items }
        ensures { result ≡ feasible self.now (flipped tally.now.sol item) }
    {
        tally.sol.bit(item) || self.fits(tally, item)
    }

    /// The item that the next feasible exchange puts in.
    fn find_exchange(&self, walk: &mut Walk) -> Option<u16>
        requires { IsWalkOf self.now walk.old }
        ensures made { IsWalkOf self.now walk.new }
        ensures item_in { IfSome result (λ item. item < self.now.items) }
        ensures free { IfSome result (λ item. chosen walk.new.reduced.sol item ≡ false) }
        ensures feasible { IfSome result (λ item. feasible self.now (with_item walk.new.reduced.sol item true) ≡ true) }
        ensures step { points self.now (exchanges_left self.now walk.old)
            ≡ option_to_list (option_map (λ item. point self.now (with_item walk.new.reduced.sol item true)) result)
            ++ points self.now (exchanges_left self.now walk.new) }
        ensures flips { flips_left self.now walk.new ≡ flips_left self.now walk.old }
        ensures end { IfNone result (exchanges_left self.now walk.new ≡ []) }
    {
        while walk.take < self.items {
            let item = self.find_put(walk);
            if item.is_some() {
                return item;
            }
            self.take_next(walk);
        }
        self.find_put(walk)
    }

    /// The item that the next feasible exchange of the item that is taken out puts in.
    fn find_put(&self, walk: &mut Walk) -> Option<u16>
        requires { IsWalkOf self.now walk.old }
        ensures made { IsWalkOf self.now walk.new }
        ensures item_in { IfSome result (λ item. item < self.now.items) }
        ensures free { IfSome result (λ item. chosen walk.new.reduced.sol item ≡ false) }
        ensures feasible { IfSome result (λ item. feasible self.now (with_item walk.new.reduced.sol item true) ≡ true) }
        ensures step { points self.now (exchanges_left self.now walk.old)
            ≡ option_to_list (option_map (λ item. point self.now (with_item walk.new.reduced.sol item true)) result)
            ++ points self.now (exchanges_left self.now walk.new) }
        ensures flips { flips_left self.now walk.new ≡ flips_left self.now walk.old }
        ensures take { walk.new.take ≡ walk.old.take }
        ensures end { IfNone result (self.now.items ≤ walk.new.put) }
    {
        while walk.put < self.items {
            let item = walk.put;
            walk.put += 1;
            if !walk.start.sol.bit(item) && self.fits(&walk.reduced, item) {
                return Some(item);
            }
        }
        None
    }

    /// Goes on to the exchanges of the next item, where it is chosen.
    fn take_next(&self, walk: &mut Walk)
        requires made { IsWalkOf self.now walk.old }
        requires item_in { walk.old.take < self.now.items }
        requires done { self.now.items ≤ walk.old.put }
        ensures made { IsWalkOf self.now walk.new }
        ensures same { exchanges_left self.now walk.new ≡ exchanges_left self.now walk.old }
        ensures flips { flips_left self.now walk.new ≡ flips_left self.now walk.old }
        ensures take { walk.new.take ≡ walk.old.take + 1 }
    {
        let item = walk.take;
        walk.take += 1;
        if walk.start.sol.bit(item) {
            walk.reduced = walk.start;
            self.take(&mut walk.reduced, item);
            walk.put = 0;
        }
    }
}
