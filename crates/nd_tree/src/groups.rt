ghost use Rattle.std.specs.Prelude.{◌≡◌, ◌+◌, ◌<◌, ◌≤◌, [], ◌∷◌, ◌++◌, All, length, map, take, slice_index_or};
ghost use Rattle.std.specs.List.{concat};
ghost use Rattle.std.specs.List.Sorted.{IsPermutation};
ghost use Rattle.pls_vectors.specs.Box.{box_of, grown};
ghost use Rattle.nd_tree.specs.Closest.{closest};
ghost use Rattle.nd_tree.specs.Split.{value_at, AreUniform, places, lists_in, changed_at, joined, split};

use crate::choice::{FULL, MOST_GROUPS, begin_groups};
use crate::closest;
use arrayvec::ArrayVec;
use pls_vectors::{Range, Vector};
use std::marker::Model;

/// The groups of a split, each a list of places counted from 0, of which the first began it.
#[derive(Drop)]
pub struct Groups {
    lists: ArrayVec<ArrayVec<u8, FULL>, MOST_GROUPS>,
}

impl Model for Groups {
    ghost use Rattle.std.specs.Prelude.{ℕ, List};
    ghost use Rattle.nd_tree.specs.Split.{lists_in};

    ghost Value = { List (List ℕ) };

    ghost view = { λ g. lists_in g.lists.items };
}

impl Groups {
    /// How many groups there are.
    pub fn count(&self) -> usize
        ensures { result ≡ length self.now }
    {
        self.lists.len()
    }

    /// The places of group `k`, counted from 0.
    pub fn group(&self, k: usize) -> &[u8]
        requires { k < length self.now }
        ensures { result.now ≡ slice_index_or self.now k [] }
    {
        self.lists[k].as_slice()
    }
}

/// Divides 21 vectors of `d` parts into `d + 1` groups (Jaszkiewicz and Lust 2018). The first is begun by the vector with the largest
/// sum of distances to the others, and each further one by the vector with the largest sum of distances to those that began one before.
/// The others join the group with the closest box, in order. Of equals the earlier is taken. It takes no memory.
pub fn split(values: &[Vector]) -> Groups
    requires many { length values.now ≡ 21 }
    requires parts { AreUniform values.now }
    ensures value { result ≡ split values.now }
    ensures count { length result ≡ length (value_at values.now 0) + 1 }
    ensures some { All (λ group. 0 < length group) result }
    ensures once { IsPermutation (places 21) (concat result) }
    ensures below { All (λ group. All (λ place. place < 21) group) result }
{
    let choice = begin_groups(values);
    let chosen = choice.chosen();
    let mut lists = lists_of(chosen);
    let mut boxes = boxes_of(values, chosen);
    join_all(
        lists.as_mut_slice(),
        &mut boxes[..chosen.len()],
        values,
        choice.left(),
    );
    Groups { lists }
}

/// A list of each of these places alone.
fn lists_of(chosen: &[u8]) -> ArrayVec<ArrayVec<u8, FULL>, MOST_GROUPS>
    requires { length chosen.now ≤ 5 }
    ensures { lists_in result.items ≡ map (λ k. k ∷ []) chosen.now }
{
    let mut lists = ArrayVec::new();
    for place in chosen {
        let mut list = ArrayVec::new();
        list.push(*place);
        lists.push(list);
    }
    lists
}

/// The boxes of the vectors at these places, and past them that of the first.
fn boxes_of(values: &[Vector], chosen: &[u8]) -> [Range; MOST_GROUPS]
    requires some { 0 < length chosen.now }
    requires few { length chosen.now ≤ 5 }
    requires below { All (λ k. k < length values.now) chosen.now }
    ensures { take (length chosen.now) result ≡ map (λ k. box_of (value_at values.now k)) chosen.now }
{
    let mut boxes = [Range::of(values[chosen[0] as usize]); MOST_GROUPS];
    for k in 1..chosen.len() {
        boxes[k] = Range::of(values[chosen[k] as usize]);
    }
    boxes
}

/// The vectors at these places join the lists, in order.
fn join_all(lists: &mut [ArrayVec<u8, FULL>], boxes: &mut [Range], values: &[Vector], left: &[u8])
    requires some { 0 < length lists.old }
    requires boxes { length boxes.old ≡ length lists.old }
    requires below { All (λ k. k < length values.now) left.now }
    requires parts { AreUniform values.now }
    requires box_parts { All (λ b. length b.ideal ≡ length (value_at values.now 0)) boxes.old }
    requires room { length (concat (lists_in lists.old)) + length left.now ≤ 21 }
    ensures { lists_in lists.new ≡ joined values.now (lists_in lists.old) boxes.old left.now }
{
    for place in left {
        join_closest(lists, boxes, &values[*place as usize], *place);
    }
}

/// The vector `v` at this place joins the list with the closest box, and that box grows.
fn join_closest(lists: &mut [ArrayVec<u8, FULL>], boxes: &mut [Range], v: &Vector, place: u8)
    requires some { 0 < length lists.old }
    requires boxes { length boxes.old ≡ length lists.old }
    requires parts { All (λ b. length b.ideal ≡ length v.now) boxes.old }
    requires room { length (concat (lists_in lists.old)) < 21 }
    ensures lists { lists_in lists.new ≡ changed_at (closest boxes.old v.now) (λ list. list ++ place ∷ []) (lists_in lists.old) }
    ensures boxes { boxes.new ≡ changed_at (closest boxes.old v.now) (λ b. grown b v.now) boxes.old }
    ensures parts { All (λ b. length b.ideal ≡ length v.now) boxes.new }
{
    let k = closest(boxes, v);
    lists[k].push(place);
    boxes[k].grow(*v);
}
