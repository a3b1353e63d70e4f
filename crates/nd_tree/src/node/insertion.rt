//! How a point comes in.
ghost use Rattle.std.specs.Prelude.{◌≡◌, ◌+◌, ◌<◌, ◌≤◌, ◌∷◌, [], ◌++◌, max, length};
ghost use Rattle.pls_archive.specs.Lists.{Every, AsOften};
ghost use Rattle.nd_tree.specs.Seen.{all_points, longest_of, AreChildren};
ghost use Rattle.nd_tree.specs.Insertion.{HaveEqualParts, point_at};

use super::{Body, Node, Spare};
use crate::children::closest;
use crate::hint::Hint;
use crate::leaf::Leaf;
use pls_archive::Point;
use pls_vectors::Range;
use std::alloc::Global;
use std::mem;

/// A leaf with so many points is divided.
const FULL: usize = 21;

impl Node {
    /// Adds a point below: at each inner node to the closest child, whose box grows. A leaf that has 21 points then is divided, where
    /// `levels` are left for it. Gives how many points the leaf had before that.
    pub fn insert(
        &mut self,
        alloc: Global,
        point: &Point,
        levels: usize,
        spare: &mut Spare,
    ) -> usize
        requires some { 0 < length point.now.value }
        requires parts { Every (λ q. length q.value ≡ length point.now.value) self.old.points }
        requires leaves { length point.now.value + 2 ≤ spare.old.leaves }
        requires links { length point.now.value + 1 ≤ spare.old.links }
        requires full { 21 ≤ spare.old.room }
        requires room { self.old.longest < spare.old.room }
        ensures points { AsOften (point.now ∷ self.old.points) self.new.points }
        ensures longest { self.new.longest ≤ max self.old.longest result }
    {
        match &mut self.body {
            Body::Leaf(leaf) => {
                let len = add(leaf, point, spare);
                if len == FULL && 0 < levels {
                    let (boxes, children) = divided(alloc, leaf, spare);
                    self.body = Body::Inner(boxes, children);
                }
                len
            }
            Body::Inner(boxes, children) => {
                let k = closest(boxes, &point.value);
                let value = &point.value;
                boxes[k].grow(*value);
                children[k].insert(alloc, point, levels.saturating_sub(1), spare)
            }
        }
    }
}

/// Adds a point to a leaf, which takes the memory of a spare one where it has none left.
fn add(leaf: &mut Leaf, point: &Point, spare: &mut Spare) -> usize
    requires leaves { 0 < spare.old.leaves }
    requires room { length leaf.old.points < spare.old.room }
    ensures points { leaf.new.points ≡ leaf.old.points ++ point.now ∷ [] }
    ensures len { result ≡ length leaf.new.points }
    ensures leaves { spare.old.leaves ≤ spare.new.leaves + 1 }
    ensures links { spare.new.links ≡ spare.old.links }
    ensures same { spare.new.room ≡ spare.old.room }
{
    if !leaf.has_room() {
        let mut larger = spare.take_leaf();
        larger.append(leaf);
        *leaf = larger;
    }
    leaf.push(point);
    leaf.len()
}

/// The children into which a full leaf is divided, with their boxes.
fn divided(alloc: Global, leaf: &Leaf, spare: &mut Spare) -> (Vec<Range>, Vec<Node>)
    requires many { length leaf.now.points ≡ 21 }
    requires parts { HaveEqualParts leaf.now.points }
    requires several { 0 < length (point_at leaf.now.points 0).value }
    requires leaves { length (point_at leaf.now.points 0).value + 1 ≤ spare.old.leaves }
    requires links { length (point_at leaf.now.points 0).value + 1 ≤ spare.old.links }
    requires room { 21 ≤ spare.old.room }
    ensures points { AsOften leaf.now.points (all_points result.1.items) }
    ensures longest { longest_of result.1.items ≤ 21 }
    ensures children { AreChildren result.0.items result.1.items }
{
    let groups = leaf.split();
    let (mut boxes, mut children) = spare.take_links(alloc);
    for g in 0..groups.count() {
        let mut part = spare.take_leaf();
        leaf.give(groups.group(g), &mut part);
        boxes.push_reserved(part.range());
        children.push_reserved(Node {
            first: Hint::new(),
            body: Body::Leaf(part),
        });
    }
    (boxes, children)
}
