//! What is asked of a node.
ghost use Rattle.std.specs.Prelude.{◌≡◌, ◌<◌, ◌++◌, ◌^◌, ◌-◌, ℕ, min, length, OnOk};
ghost use Rattle.pls_archive.specs.Reply.{some_weakly_dominates, has_value};
ghost use Rattle.nd_tree.specs.Questions.{IsCover, in_turn};

use super::{Body, Node};
use crate::boxes::{Told, ask, encloses};
use pls_archive::Point;
use pls_vectors::Vector;
use std::alloc::AllocError;

impl Node {
    /// A value that covers this one and is covered below, or None where none below covers this one.
    pub fn covering(&self, value: &Vector) -> Option<Vector>
        ensures { IsCover (some_weakly_dominates self.now.points) value.now result }
    {
        match &self.body {
            Body::Leaf(leaf) => leaf.covering(value),
            Body::Inner(boxes, children) => {
                let first = self.first.among(children.len());
                for i in 0..children.len() {
                    let k = in_turn(first, i);
                    match ask(&boxes[k], value) {
                        Told::Covered(nadir) => {
                            self.first.set(k);
                            return Some(nadir);
                        }
                        Told::NotCovered => {}
                        Told::Unknown => match children[k].covering(value) {
                            Some(w) => {
                                self.first.set(k);
                                return Some(w);
                            }
                            None => {}
                        },
                    }
                }
                None
            }
        }
    }

    /// Whether a point below has the value.
    pub fn has(&self, value: &Vector) -> bool
        ensures { result ≡ has_value self.now.points value.now }
    {
        match &self.body {
            Body::Leaf(leaf) => leaf.has(value),
            Body::Inner(boxes, children) => {
                for k in 0..children.len() {
                    if encloses(&boxes[k], value) {
                        if children[k].has(value) {
                            return true;
                        }
                    }
                }
                false
            }
        }
    }

    /// How many points are below, or the greatest number where there are more.
    pub fn count(&self) -> usize
        ensures { result ≡ min (length self.now.points) (2 ^ 64 - 1) }
    {
        match &self.body {
            Body::Leaf(leaf) => leaf.len(),
            Body::Inner(_, children) => {
                let mut sum = 0usize;
                for k in 0..children.len() {
                    sum = sum.saturating_add(children[k].count());
                }
                sum
            }
        }
    }

    /// Puts copies of the points below at the end of a list.
    pub fn collect(&self, points: &mut Vec<Point>) -> Result<(), AllocError>
        ensures { OnOk result (points.new.items ≡ points.old.items ++ self.now.points) }
    {
        match &self.body {
            Body::Leaf(leaf) => leaf.collect(points),
            Body::Inner(_, children) => {
                for k in 0..children.len() {
                    children[k].collect(points)?;
                }
                Ok(())
            }
        }
    }
}

/// The place to which one comes at step `i`, if the one at `first` is taken before the others.
fn in_turn(first: usize, i: usize) -> usize
    ensures value { result ≡ in_turn first i }
    ensures bound { (n : ℕ) → first < n → i < n → result < n }
{
    if i == 0 {
        first
    } else if i <= first {
        i - 1
    } else {
        i
    }
}
