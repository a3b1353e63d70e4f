//! The nondominated archive as an ND-tree in shared rows, for callers that wait for nobody.
#![tactic(auto)]

mod builds;
mod calls;
mod frees;
mod joins;
mod refusal;
mod shared_calls;
mod told;
mod tree;
mod updates;

pub use refusal::TryRefusal;
pub use tree::{Tree, TreePass};
