//! Joining one pass into another.
ghost use Rattle.pls_archive.specs.View.{Joins, IsConsistent};
ghost use Rattle.pls_turn.specs.Passes.{terms_of, view_of, IsPassOf};

use crate::plays::{Absorb, Look};
use crate::turned::{TurnPass, Turned};
use pls_archive::{Rule, Single};

impl<S: Single> Turned<S> {
    // The pass takes over the lists of another, and keeps the longer observed prefix.
    pub(crate) fn join(&self, pass: &mut TurnPass<S>, other: TurnPass<S>)
        requires pass { IsPassOf self.now pass.old }
        requires other { IsPassOf self.now other }
        ensures pass { IsPassOf self.now pass.new }
        ensures joins { Joins (view_of pass.old) (view_of other) (view_of pass.new) }
        ensures consistent { IsConsistent (S.Law.reply (S.number (terms_of self.now).single.value)) (terms_of self.now).passes (view_of pass.new) }
    {
        let TurnPass { seat, word: _ } = other;
        self.table.shared.join_seat::<Absorb>(&mut pass.seat, seat);
        self.table.shared.load::<Look<S>>(&mut pass.seat, 0);
    }
}
