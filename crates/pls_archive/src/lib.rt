//! Calls and replies of archives, their histories, and the archive that is a list.
//!
//! `specs/` defines what an archive replies by its rule, of which the nondominated archive is one; which histories
//! are legal, also those of several callers; and the search runs of Pareto local search, the sequential one among
//! them, as lists of calls with their replies. Their laws are the contracts of [`history_laws`], [`run_laws`] and
//! [`order_laws`]. [`Single`] is an archive on one thread, which [`Plain`] is, as a list of its members; [`Shared`] is
//! one that several callers share.
#![tactic(auto)]

mod call;
mod laws;
mod plain;
mod point;
mod point_list;
mod rule;
mod shared;
mod single;

pub use call::{Call, Entry, Reply, Taken};
pub use laws::{history_laws, order_laws, run_laws};
pub use plain::Plain;
pub use point::Point;
pub use point_list::PointList;
pub use rule::{Nondominated, Rule};
pub use shared::{Refusal, Shared};
pub use single::Single;
