//! Linear assignments with several cost matrices, and symmetric tours with several lists of edges.
//!
//! An [`Assignment`] and a [`Tour`] are seen by contracts as the instances that `specs/` defines. Both say
//! which permutations are feasible and what they are worth, minus their costs, and walk the neighbours of a
//! permutation in lexicographic order of two places: the two entries exchanged, or the stretch between them
//! reversed. A walk keeps the sums of where it starts, so that a neighbour's value costs time in the number
//! of objectives alone. No call but `new` takes memory.
#![tactic(auto)]

mod assignment;
mod pair;
mod permutation;
mod sums;
mod table;
mod tour;
mod walk;

pub use assignment::{Assignment, assignment_laws};
pub use tour::{Tour, TourWalk, tour_laws};
pub use walk::Walk;
