ghost use Rattle.std.specs.Prelude.{◌≡◌, ℕ, ◌+◌, ◌*◌, ◌^◌, ◌<◌, ◌≤◌, nat_le, All, List, length, slice_index};
ghost use Rattle.std.specs.List.{sum_by};
ghost use Rattle.nd_tree.specs.Split.{value_at, AreUniform, distance, places, largest, total_distance, with_largest, begun};

use arrayvec::ArrayVec;
use pls_vectors::{Range, Vector};
use std::marker::Model;

/// How many vectors are divided.
pub(crate) const FULL: usize = 21;

/// The greatest number of groups, one more than the greatest number of parts.
pub(crate) const MOST_GROUPS: usize = 5;

/// The places of the vectors that begin the groups, and those that are left, in order.
#[derive(Drop)]
pub(crate) struct Choice {
    chosen: ArrayVec<u8, MOST_GROUPS>,
    left: ArrayVec<u8, FULL>,
}

impl Model for Choice {
    ghost use Rattle.nd_tree.specs.Split.{Begun};

    ghost Value = { Begun };

    ghost view = { λ c. record { chosen = c.chosen.items; left = c.left.items } };
}

impl Choice {
    /// Those that begin the groups.
    pub(crate) fn chosen(&self) -> &[u8]
        ensures value { result.now ≡ self.now.chosen }
        ensures few { length result.now ≤ 5 }
    {
        self.chosen.as_slice()
    }

    /// Those that are left.
    pub(crate) fn left(&self) -> &[u8]
        ensures { result.now ≡ self.now.left }
    {
        self.left.as_slice()
    }

    /// The one with the largest sum begins the next group.
    fn take_largest(&mut self, sums: &[u128; FULL])
        requires some { 0 < length self.old.left }
        requires below { All (λ k. k < 21) self.old.left }
        requires room { length self.old.chosen < 5 }
        ensures { self.new ≡ with_largest (λ k. slice_index sums.now k) self.old }
    {
        let at = largest(self.left.as_slice(), sums);
        let place = self.left.remove(at);
        self.chosen.push(place);
    }
}

/// Chooses the vectors that begin the groups, one more than they have parts.
pub(crate) fn begin_groups(values: &[Vector]) -> Choice
    requires many { length values.now ≡ 21 }
    requires parts { AreUniform values.now }
    ensures value { result ≡ begun values.now (length (value_at values.now 0)) }
    ensures few { length (value_at values.now 0) ≤ 4 }
{
    let mut choice = Choice {
        chosen: ArrayVec::new(),
        left: all_places(),
    };
    choice.take_largest(&sums_to_all(values));
    let mut sums = [0; FULL];
    for k in 0..values[0].len() {
        let last = choice.chosen()[k] as usize;
        add_distances(&mut sums, values, &values[last]);
        choice.take_largest(&sums);
    }
    choice
}

/// The places of all vectors, in order.
fn all_places() -> ArrayVec<u8, FULL>
    ensures { result.items ≡ places 21 }
{
    let mut places = ArrayVec::new();
    for place in 0..FULL {
        places.push(place as u8);
    }
    places
}

/// Where in `left` the place with the largest sum stands, the first of equals.
fn largest(left: &[u8], sums: &[u128; FULL]) -> usize
    requires some { 0 < length left.now }
    requires below { All (λ k. k < 21) left.now }
    ensures value { result ≡ largest (λ k. slice_index sums.now k) left.now }
    ensures bound { result < length left.now }
{
    let mut best = 0;
    for k in 1..left.len() {
        if sums[left[best] as usize] < sums[left[k] as usize] {
            best = k;
        }
    }
    best
}

/// Of each vector four times the sum of its distances to all.
fn sums_to_all(values: &[Vector]) -> [u128; FULL]
    requires many { length values.now ≡ 21 }
    requires parts { AreUniform values.now }
    ensures { (k : ℕ) → k < 21 → slice_index result k ≡ 4 * total_distance values.now (places 21) k }
{
    let mut sums = [0; FULL];
    for k in 0..FULL {
        let own = add_distances(&mut sums[..k], values, &values[k]);
        sums[k] = own;
    }
    sums
}

/// Adds to each sum four times the distance of its vector and `v`, and gives the sum of what was added.
fn add_distances(sums: &mut [u128], values: &[Vector], v: &Vector) -> u128
    requires few { length sums.old ≤ 21 }
    requires enough { length sums.old ≤ length values.now }
    requires parts { All (λ w. length w ≡ length v.now) values.now }
    requires low { All (λ sum. sum ≤ 20 * 2 ^ 86) sums.old }
    ensures sums { (k : ℕ) → k < length sums.old → slice_index sums.new k ≡ slice_index sums.old k + 4 * distance (value_at values.now k) v.now }
    ensures bound { (k : ℕ) → k < length sums.old → slice_index sums.new k ≤ slice_index sums.old k + 2 ^ 86 }
    ensures added { result ≡ 4 * sum_by (λ k. distance (value_at values.now k) v.now) (places (length sums.old)) }
    ensures added_bound { result ≤ length sums.old * 2 ^ 86 }
{
    let mut added = 0;
    for k in 0..sums.len() {
        // the box of one vector, whose gap is four times the distance
        let more = Range::of(values[k]).gap(v);
        sums[k] += more;
        added += more;
    }
    added
}
