//! An archive on one thread.

use crate::rule::Rule;
use crate::{Point, PointList, Taken};
use pls_vectors::Vector;
use std::alloc::{AllocError, Global};

/// An archive on one thread. Contracts see it as a list of points, which are the members of all that was submitted, in any order.
pub trait Single: Drop {
    ghost use Rattle.std.specs.Prelude.{◌≡◌, ℕ, List, length, IfOk, OnErr};
    ghost use Rattle.pls_archive.specs.declared.point.Point.{Point};
    ghost use Rattle.pls_archive.specs.declared.call.Call.TheVariants.{Covered, Member, Snapshot};
    ghost use Rattle.pls_archive.specs.declared.call.Reply.TheVariants.{Points};
    ghost use Rattle.pls_archive.specs.Archives.{Replies, Updates, yes_or_no};

    /// The rule by which it replies.
    type Law: Rule;

    /// The number that the rule takes. No call changes it.
    ghost number: { Self → ℕ };

    /// How many parts a vector has. No call changes it.
    ghost objectives: { Self → ℕ };

    /// Its members.
    ghost points: { Self → List Point };

    /// Submits a point. After want of memory nothing has changed.
    fn update(&mut self, point: Point) -> Result<Taken, AllocError>
        requires { length point.value ≡ objectives self.old }
        ensures number { number self.new ≡ number self.old }
        ensures objectives { objectives self.new ≡ objectives self.old }
        ensures updates { IfOk result (λ t. Updates (Self.Law.front (number self.old)) (Self.Law.reply (number self.old)) point t (points self.old) (points self.new)) }
        ensures same { OnErr result (points self.new ≡ points self.old) };

    /// Whether the value is covered, as the rule has it.
    fn covered(&self, value: &Vector) -> bool
        requires { length value.now ≡ objectives self.now }
        ensures { Replies (Self.Law.front (number self.now)) (Self.Law.reply (number self.now)) (points self.now) (Covered value.now) (yes_or_no result) };

    /// Whether the value is that of a member.
    fn member(&self, value: &Vector) -> bool
        requires { length value.now ≡ objectives self.now }
        ensures { Replies (Self.Law.front (number self.now)) (Self.Law.reply (number self.now)) (points self.now) (Member value.now) (yes_or_no result) };

    /// The members, in ascending lexicographic order of values.
    fn snapshot(&self, alloc: Global) -> Result<PointList, AllocError>
        ensures { IfOk result (λ list. Replies (Self.Law.front (number self.now)) (Self.Law.reply (number self.now)) (points self.now) Snapshot (Points list)) };
}
