//! The questions to an archive by turns.
ghost use Rattle.std.specs.Prelude.{◌≡◌, length, IfOk, OnErr};
ghost use Rattle.pls_archive.specs.declared.call.Call.TheVariants.{Covered, Member, Snapshot};
ghost use Rattle.pls_archive.specs.declared.call.Reply.TheVariants.{Points};
ghost use Rattle.pls_archive.specs.Archives.{yes_or_no};
ghost use Rattle.pls_archive.specs.SharedCalls.{Answers, IsRefused};
ghost use Rattle.pls_turn.specs.Passes.{terms_of, view_of, IsPassOf};

use crate::answers::{IsCovered, IsMember, Members};
use crate::turned::{TurnPass, Turned};
use pls_archive::{PointList, Rule, Single};
use pls_vectors::Vector;
use std::alloc::{AllocError, Global};
use std::snapshot;
use std::sync::Wait;

impl<S: Single> Turned<S> {
    // Whether the value is covered, and the stamp of that answer.
    pub(crate) fn covered<R: Wait>(
        &self,
        rt: &R,
        pass: &mut TurnPass<S>,
        value: Vector,
    ) -> (bool, u64)
        requires pass { IsPassOf self.now pass.old }
        requires parts { length value ≡ S.objectives (terms_of self.now).single.value }
        ensures pass { IsPassOf self.now pass.new }
        ensures answers { Answers (S.Law.reply (S.number (terms_of self.now).single.value)) (terms_of self.now).passes (view_of pass.old) (Covered value) (yes_or_no result.0) result.1 (view_of pass.new) }
    {
        let word = pass.word;
        let count = self.take_turn(rt, &mut pass.seat, word);
        let yes = self.ask_covered(&mut pass.seat, &value);
        let value = snapshot::Snapshot::of(&value);
        self.answer(pass, &IsCovered { value, yes }, count);
        (yes, count)
    }

    // Whether the value is that of a member, and the stamp of that answer.
    pub(crate) fn member<R: Wait>(
        &self,
        rt: &R,
        pass: &mut TurnPass<S>,
        value: Vector,
    ) -> (bool, u64)
        requires pass { IsPassOf self.now pass.old }
        requires parts { length value ≡ S.objectives (terms_of self.now).single.value }
        ensures pass { IsPassOf self.now pass.new }
        ensures answers { Answers (S.Law.reply (S.number (terms_of self.now).single.value)) (terms_of self.now).passes (view_of pass.old) (Member value) (yes_or_no result.0) result.1 (view_of pass.new) }
    {
        let word = pass.word;
        let count = self.take_turn(rt, &mut pass.seat, word);
        let yes = self.ask_member(&mut pass.seat, &value);
        let value = snapshot::Snapshot::of(&value);
        self.answer(pass, &IsMember { value, yes }, count);
        (yes, count)
    }

    // The members in ascending lexicographic order of values, and the stamp of that answer.
    pub(crate) fn snapshot<R: Wait>(
        &self,
        rt: &R,
        alloc: Global,
        pass: &mut TurnPass<S>,
    ) -> Result<(PointList, u64), AllocError>
        requires pass { IsPassOf self.now pass.old }
        ensures pass { IsPassOf self.now pass.new }
        ensures answers { IfOk result (λ a. Answers (S.Law.reply (S.number (terms_of self.now).single.value)) (terms_of self.now).passes (view_of pass.old) Snapshot (Points a.0) a.1 (view_of pass.new)) }
        ensures refused { OnErr result (IsRefused (S.Law.reply (S.number (terms_of self.now).single.value)) (terms_of self.now).passes (view_of pass.old) (view_of pass.new)) }
    {
        let word = pass.word;
        let count = self.take_turn(rt, &mut pass.seat, word);
        match self.ask_members(alloc, &mut pass.seat) {
            Ok(list) => {
                let points = snapshot::Snapshot::of(&list);
                self.answer(pass, &Members { points }, count);
                Ok((list, count))
            }
            Err(AllocError) => {
                self.let_go(pass, count);
                Err(AllocError)
            }
        }
    }
}
