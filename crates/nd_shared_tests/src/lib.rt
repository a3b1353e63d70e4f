//! The tests of `nd_rows`, `nd_update` and `nd_shared`, and nine calls at each archive that callers share.
#![tactic(auto)]

#[cfg(test)]
mod beside_plain;
#[cfg(test)]
mod few_rows;
#[cfg(test)]
mod four_threads;
#[cfg(test)]
mod generated;
#[cfg(test)]
mod nine_calls;
#[cfg(test)]
mod questions;
#[cfg(test)]
mod rows;
#[cfg(test)]
mod starts;
#[cfg(test)]
mod tree;
#[cfg(test)]
mod two_passes;
#[cfg(test)]
mod updates;
