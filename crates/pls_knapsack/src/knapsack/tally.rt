ghost use Rattle.std.specs.Prelude.{◌≡◌, ◌≢◌, ℕ, ◌<◌, ◌≤◌, slice_index, true, false};
ghost use Rattle.pls_vectors.specs.Solution.{chosen, with_item};
ghost use Rattle.pls_knapsack.specs.Instance.{feasible, profit, sum_chosen};
ghost use Rattle.pls_knapsack.specs.Neighbours.{flipped};

use super::amounts::{PROFIT_ROWS, WEIGHT_ROWS};
use super::{Knapsack, amounts};
use pls_vectors::Sol;

/// A feasible choice with the sum of its profits in each profit row, and with what its weights leave of
/// each capacity; both are 0 in the rows that the instance does not have.
#[derive(Clone, Copy, Debug)]
pub struct Tally {
    pub sol: Sol,
    pub values: [u32; PROFIT_ROWS],
    pub rooms: [u32; WEIGHT_ROWS],
}

impl Knapsack {
    ghost use Rattle.pls_knapsack.specs.Walk.{IsTally};

    /// The tally of a choice.
    pub(super) fn tally(&self, sol: &Sol) -> Tally
        requires { feasible self.now sol.now ≡ true }
        ensures tally { IsTally self.now result }
        ensures sol { result.sol ≡ sol.now }
    {
        let total = self.total(sol);
        let mut rooms = *self.capacities();
        amounts::subtract(&mut rooms, &total.weights);
        Tally {
            sol: *sol,
            values: total.profits,
            rooms,
        }
    }

    /// Whether an item that is not chosen can be put in.
    pub(super) fn fits(&self, tally: &Tally, item: u16) -> bool
        requires tally { IsTally self.now tally.now }
        requires item_in { item < self.now.items }
        requires free { chosen tally.now.sol item ≡ false }
        ensures { result ≡ feasible self.now (with_item tally.now.sol item true) }
    {
        amounts::fit(&self.amounts(item).weights, &tally.rooms)
    }

    /// Puts an item in that is not chosen and fits.
    pub(super) fn put(&self, tally: &mut Tally, item: u16)
        requires tally { IsTally self.now tally.old }
        requires item_in { item < self.now.items }
        requires free { chosen tally.old.sol item ≡ false }
        requires fits { feasible self.now (with_item tally.old.sol item true) ≡ true }
        ensures tally { IsTally self.now tally.new }
        ensures sol { tally.new.sol ≡ with_item tally.old.sol item true }
        ensures others { (other : ℕ) → other ≢ item → chosen tally.new.sol other ≡ chosen tally.old.sol other }
    {
        let amounts = self.amounts(item);
        amounts::add(&mut tally.values, &amounts.profits);
        amounts::subtract(&mut tally.rooms, &amounts.weights);
        tally.sol.set_bit(item, true);
    }

    /// Takes a chosen item out.
    pub(super) fn take(&self, tally: &mut Tally, item: u16)
        requires tally { IsTally self.now tally.old }
        requires item_in { item < self.now.items }
        requires taken { chosen tally.old.sol item ≡ true }
        ensures tally { IsTally self.now tally.new }
        ensures sol { tally.new.sol ≡ with_item tally.old.sol item false }
        ensures smaller { (other : ℕ) → chosen tally.old.sol other ≡ false → chosen tally.new.sol other ≡ false }
    {
        let amounts = self.amounts(item);
        amounts::subtract(&mut tally.values, &amounts.profits);
        amounts::add(&mut tally.rooms, &amounts.weights);
        tally.sol.set_bit(item, false);
    }

    /// The sums of the profits once an item is flipped.
    pub(super) fn values_flipped(&self, tally: &Tally, item: u16) -> [u32; PROFIT_ROWS]
        requires tally { IsTally self.now tally.now }
        requires item_in { item < self.now.items }
        ensures { (row : ℕ) → row < 4
            → slice_index result row ≡ sum_chosen self.now (flipped tally.now.sol item) (profit self.now row) }
    {
        let mut values = tally.values;
        let profits = &self.amounts(item).profits;
        if tally.sol.bit(item) {
            amounts::subtract(&mut values, profits);
        } else {
            amounts::add(&mut values, profits);
        }
        values
    }
}
