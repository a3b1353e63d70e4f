//! The nodes of the tree.

mod insertion;
mod questions;
mod removal;
mod spare;

use crate::hint::Hint;
use crate::leaf::Leaf;
use pls_vectors::Range;
pub use spare::Spare;
use std::marker::Model;

/// A node with all that is below it. Of an inner node `first` is the child that is asked first, which covered last.
#[cycle(nd)]
#[derive(Drop)]
pub struct Node {
    first: Hint,
    body: Body,
}

/// What a node has: a list of points, or children, each with its box.
#[cycle(nd)]
#[derive(Drop)]
enum Body {
    Leaf(Leaf),
    Inner(Vec<Range>, Vec<Node>),
}

impl Model for Node {
    ghost use Rattle.nd_tree.specs.Seen.{Seen};

    ghost Value = { Seen };

    ghost use Rattle.nd_tree.specs.Nodes.{seen, IsFormed};

    ghost view = { λ a. seen a.body };

    ghost invariant = { λ a. IsFormed a.body };

    ghost size = { λ s. s.below };

    ghost use Rattle.nd_tree.specs.NodesFall.{nodes_fall};

    ghost size_decreases = { λ a h. nodes_fall a.body };
}
