//! The archive as a plain list of its members.

ghost use Rattle.std.specs.Prelude.{◌≡◌, ◌≤◌, [], not, ◌&&◌, IfOk, OnOk, OnErr, filter, length, vec_len, vec_capacity};
ghost use Rattle.std.specs.Cmp.Lexicographic.{slice_cmp};
ghost use Rattle.std.specs.List.Sorted.{IsPermutation, IsSortedByKey};
ghost use Rattle.std.specs.Ordering.{int_cmp};
ghost use Rattle.pls_vectors.specs.Archive.{dominates, with_submission};
ghost use Rattle.pls_vectors.specs.Dominance.{weakly_dominates};
ghost use Rattle.pls_archive.specs.Reply.{point_weakly_dominates, some_weakly_dominates, has_value, removed_by, nondominated, in_order};

use crate::rule::Nondominated;
use crate::single::Single;
use crate::{Point, PointList, Taken};
use pls_vectors::Vector;
use std::alloc::{AllocError, Global};
use std::cmp::min;
use std::marker::Model;

/// The nondominated archive as a list of its members, in the order in which they were accepted. It is the plain program with
/// which other archives are compared: each question goes through the list.
#[derive(Debug, Drop)]
pub struct Plain {
    objectives: u8,
    points: Vec<Point>,
}

impl Model for Plain {
    ghost use Rattle.pls_archive.specs.Plain.{ListArchive, AreMembers};

    ghost Value = { ListArchive };

    ghost view = { λ a. record { objectives = a.objectives; points = a.points.items } };

    ghost invariant = { λ a. AreMembers a.objectives a.points.items };
}

impl Plain {
    /// An archive without members, for vectors of so many parts. It takes no memory until a point is added.
    pub fn new(alloc: Global, objectives: u8) -> Plain
        requires some { 2 ≤ objectives }
        requires few { objectives ≤ 4 }
        ensures { result ≡ record { objectives = objectives; points = [] } }
    {
        Plain {
            objectives,
            points: Vec::new(alloc),
        }
    }
}

impl Single for Plain {
    type Law = Nondominated;

    ghost number = { λ _. 0 };

    ghost objectives = { λ a. a.objectives };

    ghost points = { λ a. a.points };

    fn update(&mut self, point: Point) -> Result<Taken, AllocError> {
        let point = &point;
        if is_covered(&self.points, &point.value) {
            return Ok(Taken::Refused);
        }
        self.points.try_reserve(1)?;
        let before = self.points.len();
        drop_dominated(&mut self.points, &point.value);
        let removed = before - self.points.len();
        self.points.push_reserved(*point);
        Ok(Taken::Added {
            removed: min(removed, u32::MAX as usize) as u32,
        })
    }

    fn covered(&self, value: &Vector) -> bool {
        is_covered(&self.points, value)
    }

    fn member(&self, value: &Vector) -> bool {
        is_member(&self.points, value)
    }

    fn snapshot(&self, alloc: Global) -> Result<PointList, AllocError> {
        let mut points = Vec::new(alloc);
        points.extend_from_slice(&self.points)?;
        let list = PointList::sorted(points)?;
        Ok(list)
    }
}

/// Whether a point's value weakly dominates the value.
fn is_covered(points: &[Point], value: &Vector) -> bool
    ensures { result ≡ some_weakly_dominates points.now value.now }
{
    points.iter().any(|point| covers(&point.value, value))
}

/// Whether a point has the value.
fn is_member(points: &[Point], value: &Vector) -> bool
    ensures { result ≡ has_value points.now value.now }
{
    points.iter().any(|point| equals(&point.value, value))
}

/// Keeps the points that the value does not dominate, in their order.
fn drop_dominated(points: &mut Vec<Point>, value: &Vector)
    ensures items { points.new.items ≡ filter (λ q. not (dominates weakly_dominates value.now q.value)) points.old.items }
    ensures len { vec_len points.new ≤ vec_len points.old }
    ensures capacity { vec_capacity points.new ≡ vec_capacity points.old }
{
    points.retain(|point| !dominates(value, &point.value));
}

/// Whether a value weakly dominates another; it does not where their lengths differ.
fn covers(a: &Vector, b: &Vector) -> bool
    ensures { result ≡ weakly_dominates a.now b.now }
{
    a.len() == b.len() && a.covers(b)
}

/// Whether a value dominates another; it does not where their lengths differ.
fn dominates(a: &Vector, b: &Vector) -> bool
    ensures { result ≡ dominates weakly_dominates a.now b.now }
{
    a.len() == b.len() && a.dominates(b)
}

/// Whether the values are equal: each weakly dominates the other.
fn equals(a: &Vector, b: &Vector) -> bool
    ensures { result ≡ (weakly_dominates a.now b.now && weakly_dominates b.now a.now) }
{
    covers(a, b) && covers(b, a)
}
