//! ND-trees (Jaszkiewicz and Lust 2018): an archive as a tree of boxes, to which child of an inner node a value goes, and how a full
//! leaf is divided.
#![tactic(auto)]

mod boxes;
mod children;
mod choice;
mod groups;
mod hint;
mod leaf;
mod node;
mod recent;
mod tree;

pub use children::closest;
pub use groups::{Groups, split};
pub use tree::NdTree;
