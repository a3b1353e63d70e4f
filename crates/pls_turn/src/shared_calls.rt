//! An archive by turns is one that several callers share.

use crate::turned::{TurnPass, Turned};
use pls_archive::{Point, PointList, Refusal, Shared, Single, Taken};
use pls_vectors::Vector;
use std::alloc::{AllocError, Global};
use std::sync::Wait;

impl<S: Single + Send> Shared for Turned<S>
where
    S::Law: Send + Sync,
{
    ghost use Rattle.std.specs.Prelude.{◌^◌, true};
    ghost use Rattle.pls_turn.specs.Passes.{terms_of, view_of, IsPassOf};

    type Law = S::Law;

    type Pass = TurnPass<S>;

    ghost GROWS = { true };

    const GROWS: bool = true;

    ghost number = { λ t. S.number (terms_of t).single.value };

    ghost objectives = { λ t. S.objectives (terms_of t).single.value };

    ghost passes = { λ t. (terms_of t).passes };

    ghost safe = { λ _. 2 ^ 64 };

    ghost belongs = { IsPassOf };

    ghost at_rest = { λ _. Unit {0} };

    ghost view = { view_of };

    ghost shows_full = { λ _. ⊥ };

    fn update<R: Wait>(
        &self,
        rt: &R,
        pass: &mut TurnPass<S>,
        point: Point,
    ) -> Result<(Taken, u64), Refusal> {
        Turned::update(self, rt, pass, point)
    }

    fn covered<R: Wait>(&self, rt: &R, pass: &mut TurnPass<S>, value: Vector) -> (bool, u64) {
        Turned::covered(self, rt, pass, value)
    }

    fn member<R: Wait>(&self, rt: &R, pass: &mut TurnPass<S>, value: Vector) -> (bool, u64) {
        Turned::member(self, rt, pass, value)
    }

    fn snapshot<R: Wait>(
        &self,
        rt: &R,
        alloc: Global,
        pass: &mut TurnPass<S>,
    ) -> Result<(PointList, u64), AllocError> {
        Turned::snapshot(self, rt, alloc, pass)
    }

    fn join(&self, pass: &mut TurnPass<S>, other: TurnPass<S>) {
        Turned::join(self, pass, other)
    }
}
