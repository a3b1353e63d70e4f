//! Work on the archive while its turn is held.
ghost use Rattle.std.specs.Prelude.{◌≡◌, IfOk, OnErr, length};
ghost use Rattle.pls_archive.specs.declared.call.Call.TheVariants.{Update, Covered, Member, Snapshot};
ghost use Rattle.pls_archive.specs.declared.call.Reply.TheVariants.{Points};
ghost use Rattle.pls_archive.specs.declared.call.Entry.{Entry};
ghost use Rattle.pls_archive.specs.Archives.{reply_of, yes_or_no};
ghost use Rattle.pls_archive.specs.History.{submissions};
ghost use Rattle.pls_turn.specs.Passes.{terms_of};
ghost use Rattle.pls_turn.specs.TurnSeats.{HasArchive, observed_after};

use crate::seen::Turn;
use crate::turned::Turned;
use atomic_table::Seat;
use pls_archive::{Point, PointList, Rule, Single, Taken};
use pls_vectors::Vector;
use std::alloc::{AllocError, Global};

impl<S: Single> Turned<S> {
    // Submits the point.
    pub(crate) fn submit(
        &self,
        seat: &mut Seat<S, Turn<S>>,
        point: &Point,
    ) -> Result<Taken, AllocError>
        requires table { seat.old.table_id ≡ self.now.table.shared.table_id }
        requires archive { HasArchive S.Law.Rule S.Single self.now seat.old.me.0.view.observed seat.old }
        requires parts { length point.now.value ≡ S.objectives (terms_of self.now).single.value }
        ensures table { seat.new.table_id ≡ seat.old.table_id }
        ensures view { seat.new.me.0 ≡ seat.old.me.0 }
        ensures right { IfOk result (λ t. reply_of t ≡ S.Law.reply (S.number (terms_of self.now).single.value) (submissions seat.old.me.0.view.observed) (Update point.now)) }
        ensures archive { IfOk result (λ t. (e : Entry) → e.call ≡ Update point.now → e.reply ≡ reply_of t
            → HasArchive S.Law.Rule S.Single self.now (observed_after e seat.old.me.0.view.observed) seat.new) }
        ensures same { OnErr result (HasArchive S.Law.Rule S.Single self.now seat.old.me.0.view.observed seat.new) }
    {
        let archive = seat.slot_mut(&self.table.shared, 0);
        archive.update(*point)
    }

    // Whether the value is covered.
    pub(crate) fn ask_covered(&self, seat: &mut Seat<S, Turn<S>>, value: &Vector) -> bool
        requires table { seat.old.table_id ≡ self.now.table.shared.table_id }
        requires archive { HasArchive S.Law.Rule S.Single self.now seat.old.me.0.view.observed seat.old }
        requires parts { length value.now ≡ S.objectives (terms_of self.now).single.value }
        ensures same { (seat.new.table_id ≡ seat.old.table_id) × (seat.new.me ≡ seat.old.me) }
        ensures right { yes_or_no result ≡ S.Law.reply (S.number (terms_of self.now).single.value) (submissions seat.old.me.0.view.observed) (Covered value.now) }
    {
        let archive = seat.slot_mut(&self.table.shared, 0);
        archive.covered(value)
    }

    // Whether the value is that of a member.
    pub(crate) fn ask_member(&self, seat: &mut Seat<S, Turn<S>>, value: &Vector) -> bool
        requires table { seat.old.table_id ≡ self.now.table.shared.table_id }
        requires archive { HasArchive S.Law.Rule S.Single self.now seat.old.me.0.view.observed seat.old }
        requires parts { length value.now ≡ S.objectives (terms_of self.now).single.value }
        ensures same { (seat.new.table_id ≡ seat.old.table_id) × (seat.new.me ≡ seat.old.me) }
        ensures right { yes_or_no result ≡ S.Law.reply (S.number (terms_of self.now).single.value) (submissions seat.old.me.0.view.observed) (Member value.now) }
    {
        let archive = seat.slot_mut(&self.table.shared, 0);
        archive.member(value)
    }

    // The members in order.
    pub(crate) fn ask_members(
        &self,
        alloc: Global,
        seat: &mut Seat<S, Turn<S>>,
    ) -> Result<PointList, AllocError>
        requires table { seat.old.table_id ≡ self.now.table.shared.table_id }
        requires archive { HasArchive S.Law.Rule S.Single self.now seat.old.me.0.view.observed seat.old }
        ensures same { (seat.new.table_id ≡ seat.old.table_id) × (seat.new.me ≡ seat.old.me) }
        ensures right { IfOk result (λ points. Points points ≡ S.Law.reply (S.number (terms_of self.now).single.value) (submissions seat.old.me.0.view.observed) Snapshot) }
    {
        let archive = seat.slot_mut(&self.table.shared, 0);
        archive.snapshot(alloc)
    }
}
