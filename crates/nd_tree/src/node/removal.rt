//! How dominated points leave.
ghost use Rattle.std.specs.Prelude.{◌≡◌, ◌⊎◌, ◌+◌, ◌<◌, ◌≤◌, ◌^◌, ◌-◌, not, [], ◌++◌, min, length, take, drop, filter, vec_len, IsTrue, IsFalse};
ghost use Rattle.pls_vectors.specs.Archive.{dominates};
ghost use Rattle.pls_vectors.specs.Dominance.{weakly_dominates};
ghost use Rattle.pls_archive.specs.Lists.{how_many};
ghost use Rattle.nd_tree.specs.Seen.{all_points, longest_of, AreEnclosed, AreChildren};

use super::{Body, Node};
use crate::boxes::{Fate, fate_of};
use crate::hint::Hint;
use crate::leaf::Leaf;
use pls_vectors::{Range, Vector};
use std::alloc::Global;

impl Node {
    /// A leaf without points, which takes no memory.
    pub fn empty(alloc: Global) -> Node
        ensures points { result.points ≡ [] }
        ensures longest { result.longest ≡ 0 }
    {
        Node {
            first: Hint::new(),
            body: Body::Leaf(Leaf::new(alloc)),
        }
    }

    /// Takes away all that is below.
    fn clear(&mut self, alloc: Global)
        ensures points { self.new.points ≡ [] }
        ensures longest { self.new.longest ≡ 0 }
    {
        *self = Node::empty(alloc);
    }

    /// Whether no point is below.
    pub fn is_empty(&self) -> bool
        ensures empty { IsTrue result → self.now.points ≡ [] }
        ensures occupied { IsFalse result → 0 < length self.now.points }
    {
        match &self.body {
            Body::Leaf(leaf) => leaf.len() == 0,
            Body::Inner(_, _) => false,
        }
    }

    /// Removes the points below that the value dominates, and says how many they were, or the greatest number where there were more.
    pub fn remove_dominated(&mut self, alloc: Global, value: &Vector) -> usize
        ensures points { self.new.points ≡ filter (λ q. not (dominates weakly_dominates value.now q.value)) self.old.points }
        ensures count { result ≡ min (how_many (λ q. dominates weakly_dominates value.now q.value) self.old.points) (2 ^ 64 - 1) }
        ensures longest { self.new.longest ≤ self.old.longest }
    {
        match &mut self.body {
            Body::Leaf(leaf) => leaf.remove_dominated(value),
            Body::Inner(boxes, children) => {
                let mut removed = 0usize;
                for k in 0..children.len() {
                    match fate_of(&boxes[k], value) {
                        Fate::Stays => {}
                        Fate::Falls => {
                            removed = removed.saturating_add(children[k].count());
                            children[k].clear(alloc);
                        }
                        Fate::Unknown => {
                            removed = removed.saturating_add(children[k].remove_dominated(
                                alloc, value,
                            ));
                        }
                    }
                }
                drop_empty(boxes, children);
                if children.len() == 1 {
                    if let Some(only) = children.pop() {
                        *self = only;
                    }
                }
                removed
            }
        }
    }
}

/// Takes away the children without points, each with its box, but for one where all are without.
fn drop_empty(boxes: &mut Vec<Range>, children: &mut Vec<Node>)
    requires some { 0 < length children.old.items }
    requires enclosed { AreEnclosed boxes.old.items children.old.items }
    ensures points { all_points children.new.items ≡ all_points children.old.items }
    ensures longest { longest_of children.new.items ≤ longest_of children.old.items }
    ensures children { (length children.new.items ≡ 1) ⊎ AreChildren boxes.new.items children.new.items }
{
    let mut k = 0;
    while k < children.len() && 1 < children.len() {
        if children[k].is_empty() {
            take_away(boxes, children, k);
        } else {
            k += 1;
        }
    }
}

/// Takes one child away, with its box.
fn take_away(boxes: &mut Vec<Range>, children: &mut Vec<Node>, k: usize)
    requires in_boxes { k < vec_len boxes.old }
    requires in_children { k < vec_len children.old }
    ensures boxes { boxes.new.items ≡ take k boxes.old.items ++ drop (k + 1) boxes.old.items }
    ensures children { children.new.items ≡ take k children.old.items ++ drop (k + 1) children.old.items }
{
    boxes.remove(k);
    children.remove(k);
}
