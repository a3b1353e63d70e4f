//! Pinning a version and leaving it.
ghost use Rattle.std.specs.Prelude.{◌≡◌, ◌<◌, ◌≤◌, Some, None, []};
ghost use Rattle.era_rows.specs.Plays.{IsConsistent, having_left};
ghost use Rattle.era_rows.specs.May.{MayLeave};
ghost use Rattle.era_rows.specs.Passes.{knows_of, known_of, marked_of, IsPassOf, IsSamePass, PinsVersion};

use crate::law::{Law, Names};
use crate::pass::Pass;
use crate::plays::{Announce, Note, Pin, Said, Unpin};
use crate::rows::Rows;
use era_core::{LAST_VERSION, ROOT_ROWS};
use std::marker::Brand;

impl<L: Law> Rows<L> {
    /// Pins the current version: its number and its root row. The pass has then seen all accepted entries up to it, and the
    /// version stands for them. Its rows stay as they are until `unpin`.
    pub fn pin(&self, pass: &mut Pass<L>) -> (u64, u32)
        requires pass { IsPassOf self.now pass.old }
        requires unpinned { (known_of pass.old).core.pinned ≡ None }
        ensures pass { IsPassOf self.now pass.new }
        ensures same { IsSamePass pass.old pass.new }
        ensures marks { marked_of pass.new ≡ marked_of pass.old }
        ensures small { (result.0 ≤ LAST_VERSION) × (result.1 < ROOT_ROWS) }
        ensures current { (known_of pass.new).core.pinned ≡ Some (result.0, result.1) }
        ensures pinned { PinsVersion L.caller L.stamp L.accepted L.lawful L.stands L.right result.0 result.1 (knows_of pass.old) (knows_of pass.new) }
    {
        let noted = self.table.shared.load::<Note>(&mut pass.seat, 0) / ROOT_ROWS;
        let place = self.reservation_place(pass.number);
        self.table
            .shared
            .store::<Announce>(&mut pass.seat, place, noted + 1);
        let root = self.table.shared.load::<Pin<L>>(&mut pass.seat, 0);
        let pin = (root / ROOT_ROWS, (root % ROOT_ROWS) as u32);
        pass.pinned = Some(pin);
        pin
    }

    fn unpin_as<W: Said<L::Entry>, N: Names<L>>(&self, pass: &mut Pass<L>, names: &N)
        requires said { W.entry ≡ N.entry names.now }
        requires pass { IsPassOf self.now pass.old }
        requires may { MayLeave L.caller L.stamp L.accepted L.lawful L.stands L.right (N.entry names.now) (knows_of pass.old) }
        ensures pass { IsPassOf self.now pass.new }
        ensures same { IsSamePass pass.old pass.new }
        ensures marks { marked_of pass.new ≡ [] }
        ensures left { knows_of pass.new ≡ having_left L.caller (N.entry names.now) (knows_of pass.old) }
        ensures consistent { IsConsistent L.caller L.stamp L.accepted L.lawful L.stands L.right (knows_of pass.new) }
    {
        let place = self.reservation_place(pass.number);
        self.table
            .shared
            .store::<Unpin<L, W>>(&mut pass.seat, place, 0);
        pass.pinned = None;
        pass.marked.clear();
    }

    /// Leaves the pinned version. Where `names` names an entry, it goes to the end of the pass's own list. The marks are gone.
    pub fn unpin<N: Names<L>>(&self, pass: &mut Pass<L>, names: &N)
        requires pass { IsPassOf self.now pass.old }
        requires may { MayLeave L.caller L.stamp L.accepted L.lawful L.stands L.right (N.entry names.now) (knows_of pass.old) }
        ensures pass { IsPassOf self.now pass.new }
        ensures same { IsSamePass pass.old pass.new }
        ensures marks { marked_of pass.new ≡ [] }
        ensures left { knows_of pass.new ≡ having_left L.caller (N.entry names.now) (knows_of pass.old) }
        ensures consistent { IsConsistent L.caller L.stamp L.accepted L.lawful L.stands L.right (knows_of pass.new) }
    {
        self.unpin_as::<Brand, N>(pass, names);
    }
}
