//! The tests of the kinds of problem: `pls_knapsack`, `pls_perms`, and `pls_problem`, which is over both.
#![tactic(auto)]

#[cfg(test)]
mod assignment;
#[cfg(test)]
mod knapsack;
#[cfg(test)]
mod made;
#[cfg(test)]
mod problem;
#[cfg(test)]
mod reader;
#[cfg(test)]
mod tour;
#[cfg(test)]
mod walks;
