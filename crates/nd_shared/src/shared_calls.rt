//! The shared tree is an archive that several callers share.

use crate::refusal::TryRefusal;
use crate::tree::{Tree, TreePass};
use pls_archive::{Nondominated, Point, PointList, Refusal, Shared, Taken};
use pls_vectors::Vector;
use std::alloc::{AllocError, Global};
use std::sync::Wait;

impl Shared for Tree {
    ghost use Rattle.std.specs.Prelude.{◌≡◌, ◌≢◌, ◌+◌, ◌-◌, ◌^◌, ◌<◌, true, false, Err, IfOk, OnErr, length};
    ghost use Rattle.era_core.specs.declared.sizes.TheConstants.{LAST_VERSION};
    ghost use Rattle.era_rows.specs.Passes.{known_of, seen_of, IsPassOf};
    ghost use Rattle.pls_archive.specs.declared.call.Call.TheVariants.{Update};
    ghost use Rattle.pls_archive.specs.declared.shared.Refusal.TheVariants.{Full, Spent, Memory};
    ghost use Rattle.pls_archive.specs.Archives.{reply_of};
    ghost use Rattle.pls_archive.specs.History.{submissions, accepted};
    ghost use Rattle.pls_archive.specs.Reply.{nondominated};
    ghost use Rattle.pls_archive.specs.Rule.{is_accepting, submitted_by};
    ghost use Rattle.pls_archive.specs.SharedCalls.{Answers, IsRefused};
    ghost use Rattle.nd_update.specs.Counted.{KeepsShortage};
    ghost use Rattle.nd_shared.specs.Views.{IsResting, safe_in, view_of};

    type Law = Nondominated;

    type Pass = TreePass;

    ghost GROWS = { false };

    const GROWS: bool = false;

    ghost number = { λ _. 0 };

    ghost objectives = { λ t. t.rows.shape };

    ghost passes = { λ t. t.rows.passes };

    ghost safe = { λ t. safe_in t.rows.rows t.rows.passes };

    ghost belongs = { λ t p. IsPassOf t.rows p };

    ghost at_rest = { IsResting };

    ghost view = { view_of };

    ghost shows_full = { λ p. KeepsShortage (known_of p) };

    // Tries until no other update is published meanwhile. The clauses are those of the trait, and two more: `Full` comes only below the
    // last version of all, for a point that no member covers, and there such a point is answered by `Spent`.
    fn update<R: Wait>(
        &self,
        rt: &R,
        pass: &mut TreePass,
        point: Point,
    ) -> Result<(Taken, u64), Refusal>
        requires ready { IsPassOf self.now.rows pass.old × IsResting pass.old }
        requires parts { length point.value ≡ self.now.rows.shape }
        ensures ready { IsPassOf self.now.rows pass.new × IsResting pass.new }
        ensures answers { IfOk result (λ a. Answers nondominated self.now.rows.passes (view_of pass.old) (Update point) (reply_of a.0) a.1 (view_of pass.new)) }
        ensures room { IfOk result (λ a. a.1 < 2 ^ 40) }
        ensures refused { OnErr result (IsRefused nondominated self.now.rows.passes (view_of pass.old) (view_of pass.new)) }
        ensures full { result ≡ Err Full → KeepsShortage (known_of pass.new) × (safe_in self.now.rows.rows self.now.rows.passes < length (accepted (seen_of pass.new)) + length (submitted_by (Update point))) }
        ensures uncovered { result ≡ Err Full → (length (seen_of pass.new) < LAST_VERSION) × (is_accepting (Update point) (nondominated (submissions (seen_of pass.new)) (Update point)) ≡ true) }
        ensures spent { result ≡ Err Spent → (length (seen_of pass.new) ≡ 2 ^ 40 - 1) × (is_accepting (Update point) (nondominated (submissions (seen_of pass.new)) (Update point)) ≡ true) }
        ensures last { length (seen_of pass.new) ≡ LAST_VERSION → is_accepting (Update point) (nondominated (submissions (seen_of pass.new)) (Update point)) ≡ true → result ≡ Err Spent }
        ensures memory { result ≢ Err Memory }
        ensures stays_full { KeepsShortage (known_of pass.old) → KeepsShortage (known_of pass.new) }
        ensures full_alone { result ≢ Err Full → KeepsShortage (known_of pass.new) → KeepsShortage (known_of pass.old) }
    {
        let point = &point;
        for _ in rt.forever() {
            match self.try_point(pass, point) {
                Ok(answer) => return Ok(answer),
                Err(TryRefusal::Beaten(_)) => {}
                Err(TryRefusal::Full) => return Err(Refusal::Full),
                Err(TryRefusal::Spent) => return Err(Refusal::Spent),
            }
        }
        unreachable!()
    }

    fn covered<R: Wait>(&self, rt: &R, pass: &mut TreePass, value: Vector) -> (bool, u64) {
        self.covered_now(pass, value)
    }

    fn member<R: Wait>(&self, rt: &R, pass: &mut TreePass, value: Vector) -> (bool, u64) {
        self.member_now(pass, value)
    }

    fn snapshot<R: Wait>(
        &self,
        rt: &R,
        alloc: Global,
        pass: &mut TreePass,
    ) -> Result<(PointList, u64), AllocError> {
        self.snapshot_now(alloc, pass)
    }

    fn join(&self, pass: &mut TreePass, other: TreePass) {
        Tree::join(self, pass, other)
    }
}
