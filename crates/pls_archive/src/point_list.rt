ghost use Rattle.std.specs.Prelude.{◌≡◌, IfOk, OnOk, length};
ghost use Rattle.std.specs.Cmp.Lexicographic.{slice_cmp};
ghost use Rattle.std.specs.List.Sorted.{IsPermutation, IsSortedByKey};
ghost use Rattle.std.specs.Ordering.{int_cmp};
ghost use Rattle.std.specs.Slice.Iter.{iter_rest};

use crate::Point;
use pls_vectors::Vector;
use std::alloc::AllocError;
use std::cmp::{Ordering, min};
use std::marker::Model;
use std::slice;

/// A list of points.
#[derive(Debug, Drop)]
pub struct PointList {
    points: Vec<Point>,
}

impl Model for PointList {
    ghost use Rattle.std.specs.Prelude.{List};
    ghost use Rattle.pls_archive.specs.declared.point.Point.{Point};

    ghost Value = { List Point };

    ghost view = { λ l. l.points.items };
}

impl PointList {
    /// The list of these points, in their order.
    pub fn from_vec(points: Vec<Point>) -> PointList
        ensures { result ≡ points.items }
    {
        PointList { points }
    }

    /// The list of these points in ascending lexicographic order of values.
    pub fn sorted(points: Vec<Point>) -> Result<PointList, AllocError>
        ensures same { IfOk result (λ list. IsPermutation points.items list) }
        ensures ascending { IfOk result (λ list. IsSortedByKey (λ p. p.value) (slice_cmp int_cmp) list) }
    {
        let mut points = points;
        sort_by_value(&mut points)?;
        Ok(PointList { points })
    }

    /// The points as a `Vec`, in their order.
    pub fn into_vec(self) -> Vec<Point>
        ensures { result.items ≡ self }
    {
        self.points
    }

    /// The points, in their order.
    pub fn as_slice(&self) -> &[Point]
        ensures { result.now ≡ self.now }
    {
        self.points.as_slice()
    }
}

/// Sorts the points in ascending lexicographic order of their values.
fn sort_by_value(points: &mut Vec<Point>) -> Result<(), AllocError>
    ensures same { IsPermutation points.old.items points.new.items }
    ensures ascending { OnOk result (IsSortedByKey (λ p. p.value) (slice_cmp int_cmp) points.new.items) }
{
    points.sort_by(|a, b| lex(&a.value, &b.value))
}

/// The lexicographic order of values of any lengths.
fn lex(a: &Vector, b: &Vector) -> Ordering
    ensures { result ≡ slice_cmp int_cmp a.now b.now }
{
    for k in 0..min(a.len(), b.len()) {
        let order = a.part(k).cmp(&b.part(k));
        if order != Ordering::Equal {
            return order;
        }
    }
    a.len().cmp(&b.len())
}
