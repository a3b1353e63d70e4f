ghost use Rattle.std.specs.Prelude.{◌≡◌, ℕ, ◌<◌, ◌≤◌, true, length, slice_index};
ghost use Rattle.pls_knapsack.specs.Instance.{feasible, fits, no_other_bit, value, greedy, profit, load, sum_chosen, IsOrderOf};

use super::amounts::{Amounts, PROFIT_ROWS, WEIGHT_ROWS};
use super::tally::Tally;
use super::{Knapsack, amounts};
use pls_vectors::{Sol, Vector};

impl Knapsack {
    /// Whether the choice is of this instance's items, with no other bit, and within every capacity.
    pub fn is_feasible(&self, sol: &Sol) -> bool
        ensures { result ≡ feasible self.now sol.now }
    {
        sol.len() == self.items
            && has_no_other_bit(sol, self.items)
            && self.is_within_capacities(sol)
    }

    /// Whether no weight row is loaded beyond its capacity.
    fn is_within_capacities(&self, sol: &Sol) -> bool
        requires { sol.now.len ≡ self.now.items }
        ensures { result ≡ fits self.now sol.now }
    {
        amounts::fit(&self.total(sol).weights, self.capacities())
    }

    /// The value of a feasible choice: in each profit row the sum over the chosen items.
    pub fn value(&self, sol: &Sol) -> Vector
        requires { feasible self.now sol.now ≡ true }
        ensures value { result ≡ value self.now sol.now }
        ensures parts { length result ≡ self.now.objectives }
    {
        amounts::vector_of(&self.total(sol).profits, self.objectives())
    }

    /// The sum over the chosen items in each row.
    pub(super) fn total(&self, sol: &Sol) -> Amounts
        requires { sol.now.len ≡ self.now.items }
        ensures stored { length sol.now.words ≡ 32 }
        ensures profits { (row : ℕ) → row < 4 → slice_index result.profits row ≡ sum_chosen self.now sol.now (profit self.now row) }
        ensures weights { (row : ℕ) → row < 8 → slice_index result.weights row ≡ load self.now sol.now row }
    {
        let mut total = Amounts {
            profits: [0; PROFIT_ROWS],
            weights: [0; WEIGHT_ROWS],
        };
        for item in 0..sol.len() {
            if sol.bit(item) {
                let chosen = self.amounts(item);
                amounts::add(&mut total.profits, &chosen.profits);
                amounts::add(&mut total.weights, &chosen.weights);
            }
        }
        total
    }

    /// What a greedy fill takes: it goes along the order and takes each item that still fits.
    pub fn greedy(&self, order: &[u16]) -> Sol
        requires { IsOrderOf self.now order.now }
        ensures value { result ≡ greedy self.now order.now }
        ensures feasible { feasible self.now result ≡ true }
    {
        let mut tally = Tally {
            sol: Sol::bits(self.size()),
            values: [0; PROFIT_ROWS],
            rooms: *self.capacities(),
        };
        for item in order {
            if self.fits(&tally, *item) {
                self.put(&mut tally, *item);
            }
        }
        tally.sol
    }
}

/// Whether no bit stands beyond those of the first items.
fn has_no_other_bit(sol: &Sol, items: u16) -> bool
    ensures { result ≡ no_other_bit items sol.now }
{
    let mut all = true;
    for place in 0..32 {
        let word = sol.word(place as usize);
        let bits = items.saturating_sub(64 * place);
        all &= bits >= 64 || word < 1 << bits;
    }
    all
}
