//! The points of a leaf.
ghost use Rattle.std.specs.Prelude.{◌≡◌, ◌+◌, [], ◌∷◌, ◌++◌, ◌<◌, ◌≤◌, ◌&&◌, not, nat_lt, length, map, filter, All, IfOk, OnOk, IsTrue, vec_len, vec_capacity};
ghost use Rattle.std.specs.List.{list_any};
ghost use Rattle.pls_vectors.specs.Archive.{dominates};
ghost use Rattle.pls_vectors.specs.Dominance.{weakly_dominates};
ghost use Rattle.pls_archive.specs.Reply.{some_weakly_dominates, has_value};
ghost use Rattle.pls_archive.specs.Lists.{Every};
ghost use Rattle.pls_vectors.specs.Box.{encloses};
ghost use Rattle.nd_tree.specs.Split.{AreUniform};
ghost use Rattle.nd_tree.specs.Insertion.{HaveEqualParts, AreGroups, point_at};
ghost use Rattle.nd_tree.specs.Seen.{Encloses, paired};
ghost use Rattle.nd_tree.specs.Questions.{IsCover};

use crate::boxes::{covers, dominates, equals};
use crate::groups::{Groups, split};
use pls_archive::Point;
use pls_vectors::{Range, Sol, Vector};
use std::alloc::{AllocError, Global};
use std::marker::Model;

/// The points of a leaf, with values apart from solutions, so that questions read values alone. The lists have memory for `room` points.
#[derive(Drop)]
pub struct Leaf {
    room: usize,
    values: Vec<Vector>,
    sols: Vec<Sol>,
}

impl Model for Leaf {
    ghost use Rattle.std.specs.Prelude.{◌≡◌, ◌≤◌, length, vec_capacity};
    ghost use Rattle.nd_tree.specs.Seen.{Listed, paired};

    ghost Value = { Listed };

    ghost view = { λ a. record { points = paired a.values.items a.sols.items; room = a.room } };

    ghost invariant = { λ a. (length a.values.items ≡ length a.sols.items) × (a.room ≤ vec_capacity a.values) × (a.room ≤ vec_capacity a.sols) };
}

impl Leaf {
    /// A leaf without points, and without memory.
    pub fn new(alloc: Global) -> Leaf
        ensures points { result.points ≡ [] }
        ensures room { result.room ≡ 0 }
    {
        Leaf {
            room: 0,
            values: Vec::new(alloc),
            sols: Vec::new(alloc),
        }
    }

    /// A leaf without points, with memory for so many.
    pub fn with_room(alloc: Global, room: usize) -> Result<Leaf, AllocError>
        ensures { IfOk result (λ leaf. leaf ≡ record { points = []; room = room }) }
    {
        let values = Vec::with_capacity(alloc, room)?;
        let sols = Vec::with_capacity(alloc, room)?;
        Ok(Leaf { room, values, sols })
    }

    pub fn has_room(&self) -> bool
        ensures { result ≡ nat_lt (length self.now.points) self.now.room }
    {
        self.values.len() < self.room
    }

    pub fn push(&mut self, point: &Point)
        requires { length self.old.points < self.old.room }
        ensures points { self.new.points ≡ self.old.points ++ point.now ∷ [] }
        ensures room { self.new.room ≡ self.old.room }
    {
        let value = &point.value;
        let sol = &point.sol;
        self.values.push_reserved(*value);
        self.sols.push_reserved(*sol);
    }

    /// Puts the other leaf's points behind its own, and leaves the other without.
    pub fn append(&mut self, other: &mut Leaf)
        requires { length self.old.points + length other.old.points ≤ self.old.room }
        ensures points { self.new.points ≡ self.old.points ++ other.old.points }
        ensures room { self.new.room ≡ self.old.room }
    {
        match self.values.append(&mut other.values) {
            Ok(()) => {}
            Err(_) => unreachable!(),
        }
        match self.sols.append(&mut other.sols) {
            Ok(()) => {}
            Err(_) => unreachable!(),
        }
    }

    /// The groups of places into which its 21 values are divided.
    pub fn split(&self) -> Groups
        requires many { length self.now.points ≡ 21 }
        requires parts { HaveEqualParts self.now.points }
        ensures { AreGroups self.now.points result }
    {
        split(&self.values)
    }

    /// Puts copies of the points at these places behind those of another leaf.
    pub fn give(&self, places: &[u8], to: &mut Leaf)
        requires below { All (λ place. place < length self.now.points) places.now }
        requires room { length to.old.points + length places.now ≤ to.old.room }
        ensures { to.new.points ≡ to.old.points ++ map (λ k. point_at self.now.points k) places.now }
    {
        for i in 0..places.len() {
            let k = places[i] as usize;
            let value = &self.values[k];
            let sol = &self.sols[k];
            to.push(&Point {
                value: *value,
                sol: *sol,
            });
        }
    }

    /// The box of its values.
    pub fn range(&self) -> Range
        requires some { 0 < length self.now.points }
        requires parts { HaveEqualParts self.now.points }
        ensures { Encloses result self.now.points }
    {
        range_of(&self.values)
    }

    pub fn len(&self) -> usize
        ensures { result ≡ length self.now.points }
    {
        self.values.len()
    }

    /// A value of the leaf that covers this one.
    pub fn covering(&self, value: &Vector) -> Option<Vector>
        ensures { IsCover (some_weakly_dominates self.now.points) value.now result }
    {
        covering(&self.values, value)
    }

    /// Whether a point has the value.
    pub fn has(&self, value: &Vector) -> bool
        ensures { result ≡ has_value self.now.points value.now }
    {
        has(&self.values, value)
    }

    /// Puts copies of the points at the end of a list.
    pub fn collect(&self, points: &mut Vec<Point>) -> Result<(), AllocError>
        ensures { OnOk result (points.new.items ≡ points.old.items ++ self.now.points) }
    {
        for k in 0..self.values.len() {
            let value = &self.values[k];
            let sol = &self.sols[k];
            points.push(Point {
                value: *value,
                sol: *sol,
            })?;
        }
        Ok(())
    }

    /// Removes the points that the value dominates, and says how many they were.
    pub fn remove_dominated(&mut self, value: &Vector) -> usize
        ensures points { self.new.points ≡ filter (λ q. not (dominates weakly_dominates value.now q.value)) self.old.points }
        ensures room { self.new.room ≡ self.old.room }
        ensures count { result + length self.new.points ≡ length self.old.points }
    {
        let before = self.values.len();
        drop_dominated(&mut self.values, &mut self.sols, value);
        before - self.values.len()
    }
}

/// The first of the values that covers this one.
fn covering(values: &[Vector], value: &Vector) -> Option<Vector>
    ensures { IsCover (λ u. list_any (λ w. weakly_dominates w u) values.now) value.now result }
{
    for k in 0..values.len() {
        let w = &values[k];
        if covers(w, value) {
            return Some(*w);
        }
    }
    None
}

/// The box of the values.
fn range_of(values: &[Vector]) -> Range
    requires some { 0 < length values.now }
    requires parts { AreUniform values.now }
    ensures { Every (λ v. IsTrue (encloses result v)) values.now }
{
    let mut range = Range::of(values[0]);
    for k in 0..values.len() {
        range.grow(values[k]);
    }
    range
}

/// Whether one of the values equals this one.
fn has(values: &[Vector], value: &Vector) -> bool
    ensures { result ≡ list_any (λ w. weakly_dominates w value.now && weakly_dominates value.now w) values.now }
{
    values.iter().any(|w| equals(w, value))
}

/// Removes the values that this one dominates, each with its solution.
fn drop_dominated(values: &mut Vec<Vector>, sols: &mut Vec<Sol>, value: &Vector)
    requires { length values.old.items ≡ length sols.old.items }
    ensures points { paired values.new.items sols.new.items ≡ filter (λ q. not (dominates weakly_dominates value.now q.value)) (paired values.old.items sols.old.items) }
    ensures lens { length values.new.items ≡ length sols.new.items }
    ensures values_capacity { vec_capacity values.new ≡ vec_capacity values.old }
    ensures sols_capacity { vec_capacity sols.new ≡ vec_capacity sols.old }
    ensures fewer { vec_len values.new ≤ vec_len values.old }
{
    let mut k = 0;
    while k < values.len() {
        if dominates(value, &values[k]) {
            values.remove(k);
            sols.remove(k);
        } else {
            k += 1;
        }
    }
}
