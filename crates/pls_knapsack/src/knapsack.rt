ghost use Rattle.std.specs.Prelude.{◌≡◌, ℕ, ◌+◌, ◌*◌, ◌<◌, ◌≤◌, IfOk, slice_index};
ghost use Rattle.pls_knapsack.specs.Instance.{instance_from, IsWithinLimits, profit, weight};

mod amounts;
mod choices;
mod table;
mod tally;
mod walk;

use amounts::{Amounts, WEIGHT_ROWS};
use std::alloc::{AllocError, Global};
use std::marker::Model;
pub use walk::Walk;

/// A knapsack instance: each item has a profit in each profit row and a weight in each weight row.
///
/// It has 1 to 256 items, 2 to 4 profit rows and 1 to 8 weight rows; profits and weights are at most
/// 1,000,000 and capacities at most 1,000,000,000.
#[derive(Debug, Drop)]
pub struct Knapsack {
    items: u16,
    objectives: u8,
    rules: u8,
    capacities: [u32; WEIGHT_ROWS],
    /// What each item has in each row.
    table: Vec<Amounts>,
}

impl Model for Knapsack {
    ghost use Rattle.pls_knapsack.specs.Instance.{Instance};

    ghost Value = { Instance };

    ghost use Rattle.pls_knapsack.specs.Stored.{instance_in, IsStored};

    ghost view = { instance_in };

    ghost invariant = { IsStored };
}

impl Knapsack {
    ghost use Rattle.pls_knapsack.specs.Table.{IsItem};

    /// The instance with these profits, capacities and weights, row by row.
    pub fn new(
        alloc: Global,
        items: u16,
        profits: &[u32],
        capacities: &[u32],
        weights: &[u32],
    ) -> Result<Knapsack, AllocError>
        requires { IsWithinLimits (instance_from items profits.now capacities.now weights.now) }
        ensures { IfOk result (λ k. k ≡ instance_from items profits.now capacities.now weights.now) }
    {
        let objectives = (profits.len() / items as usize) as u8;
        let rules = capacities.len() as u8;
        let capacities = table::padded(capacities);
        let table = table::table_of(alloc, items, profits, weights)?;
        Ok(Knapsack {
            items,
            objectives,
            rules,
            capacities,
            table,
        })
    }

    /// How many profit rows there are.
    pub fn objectives(&self) -> u8
        ensures value { result ≡ self.now.objectives }
        ensures limits { IsWithinLimits self.now }
    {
        self.objectives
    }

    /// How many items there are.
    pub fn size(&self) -> u16
        ensures value { result ≡ self.now.items }
        ensures limits { IsWithinLimits self.now }
    {
        self.items
    }

    /// How many weight rows there are.
    pub fn rules(&self) -> u8
        ensures value { result ≡ self.now.rules }
        ensures limits { IsWithinLimits self.now }
    {
        self.rules
    }

    /// The profit of an item in a profit row.
    pub fn profit(&self, row: u8, item: u16) -> u32
        requires row_in { row < self.now.objectives }
        requires item_in { item < self.now.items }
        ensures { result ≡ profit self.now row item }
    {
        self.amounts(item).profits[row as usize]
    }

    /// The capacity of a weight row.
    pub fn capacity(&self, row: u8) -> u32
        requires { row < self.now.rules }
        ensures { result ≡ slice_index self.now.capacities row }
    {
        self.capacities()[row as usize]
    }

    /// The weight of an item in a weight row.
    pub fn weight(&self, row: u8, item: u16) -> u32
        requires row_in { row < self.now.rules }
        requires item_in { item < self.now.items }
        ensures { result ≡ weight self.now row item }
    {
        self.amounts(item).weights[row as usize]
    }

    /// What an item has in each row.
    fn amounts(&self, item: u16) -> &Amounts
        requires { item < self.now.items }
        ensures item { IsItem self.now item result.now }
        ensures limits { IsWithinLimits self.now }
    {
        &self.table[item as usize]
    }

    /// The capacities, and 0 in each weight row that the instance does not have.
    fn capacities(&self) -> &[u32; WEIGHT_ROWS]
        ensures value { (row : ℕ) → slice_index result.now row ≡ slice_index self.now.capacities row }
        ensures limits { IsWithinLimits self.now }
    {
        &self.capacities
    }
}
