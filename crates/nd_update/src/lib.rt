//! The update of an ND-tree in shared rows.
#![tactic(auto)]

mod builds;
mod inserts;
mod laws;
mod leaves;
mod removes;
mod takes;
mod words;

pub use builds::{BuildRefusal, Built, build};
pub use laws::update_laws;
pub use takes::give_all_back;
