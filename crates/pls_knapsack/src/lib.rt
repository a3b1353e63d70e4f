//! The 0/1 knapsack with several profit rows and several weight rows.
//!
//! A [`Knapsack`] is seen by contracts as the instance that `specs/` defines. It says which choices of
//! items are feasible and what they are worth, fills a choice greedily along an order, and walks the
//! neighbours of a choice in a fixed order: the flips of one item, and then the exchanges of a chosen
//! item with one that is not chosen. A [`Walk`] keeps running sums, so that a neighbour costs time in
//! the number of rows alone. No call but [`Knapsack::new`] takes memory.
#![tactic(auto)]

mod knapsack;

pub use knapsack::{Knapsack, Walk};
