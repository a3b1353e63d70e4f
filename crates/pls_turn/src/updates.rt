//! Submitting a point to an archive by turns.
ghost use Rattle.std.specs.Prelude.{◌≡◌, ◌≢◌, ◌+◌, ◌-◌, ◌^◌, ◌<◌, true, false, Err, IfOk, OnErr, length};
ghost use Rattle.pls_archive.specs.declared.point.Point.{Point};
ghost use Rattle.pls_archive.specs.declared.call.Call.TheVariants.{Update};
ghost use Rattle.pls_archive.specs.declared.shared.Refusal.TheVariants.{Full, Spent};
ghost use Rattle.pls_archive.specs.Archives.{reply_of};
ghost use Rattle.pls_archive.specs.Lists.{one_if};
ghost use Rattle.pls_archive.specs.Rule.{is_accepting};
ghost use Rattle.pls_archive.specs.History.{submissions};
ghost use Rattle.pls_archive.specs.SharedCalls.{Answers, IsRefused};
ghost use Rattle.pls_turn.specs.Passes.{terms_of, view_of, IsPassOf};
ghost use Rattle.pls_turn.specs.TurnRule.{IsInTurn};
ghost use Rattle.pls_turn.specs.TurnSeats.{HasArchive};

use crate::answers::Submitted;
use crate::seen::Turn;
use crate::turned::{TurnPass, Turned};
use atomic_table::Seat;
use pls_archive::{Point, Refusal, Rule, Single, Taken};
use std::alloc::AllocError;
use std::snapshot::Snapshot;
use std::sync::Wait;

// How many accepting entries there may be.
const MOST_ACCEPTING: u64 = (1 << 40) - 1;

// The stamp of an update, where there were so many accepting entries before it.
fn stamp_of(taken: &Taken, count: u64) -> u64
    requires { count < 2 ^ 40 }
    ensures { (p : Point) → result ≡ count + one_if (is_accepting (Update p) (reply_of taken.now)) }
{
    match taken {
        Taken::Added { .. } => count + 1,
        Taken::Refused => count,
    }
}

impl<S: Single> Turned<S> {
    // Whether the point would be accepted, and there are as many accepting entries as there may be.
    fn is_spent(&self, seat: &mut Seat<S, Turn<S>>, point: &Point, count: u64) -> bool
        requires table { seat.old.table_id ≡ self.now.table.shared.table_id }
        requires archive { HasArchive S.Law.Rule S.Single self.now seat.old.me.0.view.observed seat.old }
        requires parts { length point.now.value ≡ S.objectives (terms_of self.now).single.value }
        requires count { count < 2 ^ 40 }
        ensures same { (seat.new.table_id ≡ seat.old.table_id) × (seat.new.me ≡ seat.old.me) }
        ensures spent { result ≡ true → (count ≡ 2 ^ 40 - 1)
            × (is_accepting (Update point.now) (S.Law.reply (S.number (terms_of self.now).single.value) (submissions seat.old.me.0.view.observed) (Update point.now)) ≡ true) }
        ensures room { result ≡ false → count + one_if (is_accepting (Update point.now) (S.Law.reply (S.number (terms_of self.now).single.value) (submissions seat.old.me.0.view.observed) (Update point.now))) < 2 ^ 40 }
    {
        count == MOST_ACCEPTING && !self.ask_covered(seat, &point.value)
    }

    // Submits the point while the turn is held, and gives the turn back.
    fn submit_in_turn(
        &self,
        pass: &mut TurnPass<S>,
        point: &Point,
        count: u64,
    ) -> Result<(Taken, u64), AllocError>
        requires table { pass.old.seat.table_id ≡ self.now.table.shared.table_id }
        requires turn { IsInTurn S.Law.Rule S.Single (terms_of self.now) pass.old.seat.me.0 }
        requires archive { HasArchive S.Law.Rule S.Single self.now pass.old.seat.me.0.view.observed pass.old.seat }
        requires parts { length point.now.value ≡ S.objectives (terms_of self.now).single.value }
        requires count { count ≡ length pass.old.seat.me.0.view.observed }
        requires room { count + one_if (is_accepting (Update point.now) (S.Law.reply (S.number (terms_of self.now).single.value) (submissions pass.old.seat.me.0.view.observed) (Update point.now))) < 2 ^ 40 }
        ensures pass { IsPassOf self.now pass.new }
        ensures answers { IfOk result (λ a. Answers (S.Law.reply (S.number (terms_of self.now).single.value)) (terms_of self.now).passes (view_of pass.old) (Update point.now) (reply_of a.0) a.1 (view_of pass.new)) }
        ensures room { IfOk result (λ a. a.1 < 2 ^ 40) }
        ensures same { OnErr result (view_of pass.new ≡ view_of pass.old) }
    {
        match self.submit(&mut pass.seat, point) {
            Ok(taken) => {
                let stamp = stamp_of(&taken, count);
                let point = Snapshot::of(point);
                self.answer(pass, &Submitted { point, taken }, stamp);
                Ok((taken, stamp))
            }
            Err(AllocError) => {
                self.let_go(pass, count);
                Err(AllocError)
            }
        }
    }

    // Submits a point. After a refusal the archive and the lists of the pass are as before.
    pub(crate) fn update<R: Wait>(
        &self,
        rt: &R,
        pass: &mut TurnPass<S>,
        point: Point,
    ) -> Result<(Taken, u64), Refusal>
        requires pass { IsPassOf self.now pass.old }
        requires parts { length point.value ≡ S.objectives (terms_of self.now).single.value }
        ensures pass { IsPassOf self.now pass.new }
        ensures answers { IfOk result (λ a. Answers (S.Law.reply (S.number (terms_of self.now).single.value)) (terms_of self.now).passes (view_of pass.old) (Update point) (reply_of a.0) a.1 (view_of pass.new)) }
        ensures room { IfOk result (λ a. a.1 < 2 ^ 40) }
        ensures refused { OnErr result (IsRefused (S.Law.reply (S.number (terms_of self.now).single.value)) (terms_of self.now).passes (view_of pass.old) (view_of pass.new)) }
        ensures full { result ≢ Err Full }
        ensures spent { result ≡ Err Spent → (length (view_of pass.new).observed ≡ 2 ^ 40 - 1)
            × (is_accepting (Update point) (S.Law.reply (S.number (terms_of self.now).single.value) (submissions (view_of pass.new).observed) (Update point)) ≡ true) }
    {
        let word = pass.word;
        let count = self.take_turn(rt, &mut pass.seat, word);
        if self.is_spent(&mut pass.seat, &point, count) {
            self.let_go(pass, count);
            return Err(Refusal::Spent);
        }
        match self.submit_in_turn(pass, &point, count) {
            Ok(answer) => Ok(answer),
            Err(AllocError) => Err(Refusal::Memory),
        }
    }
}
