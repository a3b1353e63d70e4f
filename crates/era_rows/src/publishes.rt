//! Publishing a tree of rows in the place of the pinned one.
ghost use Rattle.std.specs.Prelude.{◌≡◌, ◌≢◌, ℕ, ◌+◌, ◌-◌, ◌^◌, ◌<◌, ◌≤◌, true, false, if◌then◌else◌, Some, [], ◌∷◌, ◌++◌, filter, map, length, slice_index_or, vec_capacity};
ghost use Rattle.era_core.specs.Lists.{times, In, is_in};
ghost use Rattle.era_core.specs.Words.{root_word};
ghost use Rattle.era_rows.specs.Known.{pinned_copy};
ghost use Rattle.era_rows.specs.May.{AreReplaced, MayPublish, MayPublishNamed};
ghost use Rattle.era_rows.specs.Plays.{Publishes, Loses};
ghost use Rattle.era_rows.specs.Passes.{knows_of, known_of, marked_of, IsSeatOf, IsPassOf, IsSamePass, Publication};

use crate::law::{Law, Names};
use crate::pass::Pass;
use crate::plays::{Publish, Said};
use crate::refusal::PublishRefusal;
use crate::ring::retire;
use crate::rows::Rows;
use crate::views::Knows;
use atomic_table::Seat;
use era_core::{LAST_VERSION, ROOT_ROWS, packed};
use std::marker::Brand;

impl<L: Law> Rows<L> {
    // Puts a tree in the place of the pinned one, if no other was put there: the root word that was found.
    fn exchange_root<W: Said<L::Entry>, N: Names<L>>(
        &self,
        seat: &mut Seat<(), Knows<L::Entry>>,
        pin: (u64, u32),
        root: u32,
        names: &N,
    ) -> u64
        requires said { W.entry ≡ N.entry names.now }
        requires seat { IsSeatOf self.now seat.old }
        requires root { root < self.now.rows }
        requires may { (e : L.Entry) × (N.entry names.now ≡ Some e) × MayPublish L.caller L.stamp L.accepted L.lawful L.stands L.right pin.0 pin.1 root e seat.old.me.0 }
        requires last { (pin.0 < LAST_VERSION) × (pin.1 < ROOT_ROWS) }
        ensures seat { IsSeatOf self.now seat.new }
        ensures slots { seat.new.me.1 ≡ seat.old.me.1 }
        ensures won { (e : L.Entry) → N.entry names.now ≡ Some e → result ≡ root_word pin.0 pin.1 → Publishes L.caller L.stamp L.accepted L.lawful L.stands L.right pin.0 pin.1 root e seat.old.me.0 seat.new.me.0 }
        ensures lost { result ≢ root_word pin.0 pin.1 → Loses L.caller L.stamp L.accepted L.lawful L.stands L.right result seat.old.me.0 seat.new.me.0 }
    {
        let old = packed(pin.0, pin.1);
        let new = packed(pin.0 + 1, root);
        self.table
            .shared
            .compare_exchange::<Publish<L, W>>(seat, 0, old, new)
    }

    /// Puts the tree at a fresh row in the place of the pinned one, with the entry that is named: the number of the new
    /// version. `Beaten` says which version is current instead, and `Spent` that the pinned one is the last of all; then the
    /// fresh rows stay with the pass. In each case the marks are gone, and the pass has pinned what it had.
    pub fn publish<N: Names<L>>(
        &self,
        pass: &mut Pass<L>,
        root: u32,
        names: &N,
    ) -> Result<u64, PublishRefusal>
        requires pass { IsPassOf self.now pass.old }
        requires may { MayPublishNamed L.caller L.stamp L.accepted L.lawful L.stands L.right (N.entry names.now) root (knows_of pass.old) }
        requires marks { AreReplaced root (known_of pass.old) (marked_of pass.old) }
        ensures pass { IsPassOf self.now pass.new }
        ensures same { IsSamePass pass.old pass.new }
        ensures marks { marked_of pass.new ≡ [] }
        ensures published { (n p : ℕ) (e : L.Entry) → (known_of pass.old).core.pinned ≡ Some (n, p) → N.entry names.now ≡ Some e → Publication L.caller L.stamp L.accepted L.lawful L.stands L.right n p root e (knows_of pass.old) (knows_of pass.new) result }
    {
        let Some(pin) = pass.pinned else {
            unreachable!()
        };
        if pin.0 == LAST_VERSION {
            pass.marked.clear();
            return Err(PublishRefusal::Spent);
        }
        self.reach(&mut pass.seat, &mut pass.loose, &mut pass.reached, root);
        let found = self.exchange_root::<Brand, N>(&mut pass.seat, pin, root, names);
        if found != packed(pin.0, pin.1) {
            loosen(&mut pass.loose, &pass.reached);
            pass.marked.clear();
            return Err(PublishRefusal::Beaten(found / ROOT_ROWS));
        }
        keep_loose(&mut pass.fresh, &pass.loose);
        retire(&mut pass.retired, &mut pass.marked, pin.0);
        Ok(pin.0 + 1)
    }
}

// These rows are loose.
pub(crate) fn loosen(loose: &mut Vec<bool>, rows: &Vec<u32>)
    requires inside { (x : ℕ) → In x rows.now.items → x < length loose.old.items }
    ensures len { length loose.new.items ≡ length loose.old.items }
    ensures loose { (x : ℕ) → slice_index_or loose.new.items x false ≡ (if is_in x rows.now.items then true else slice_index_or loose.old.items x false) }
{
    for i in 0..rows.len() {
        loose[rows[i] as usize] = true;
    }
}

fn is_loose(loose: &Vec<bool>, row: u32) -> bool
    ensures { result ≡ slice_index_or loose.now.items row false }
{
    (row as usize) < loose.len() && loose[row as usize]
}

// Keeps the rows that are loose.
fn keep_loose(rows: &mut Vec<u32>, loose: &Vec<bool>)
    ensures rows { rows.new.items ≡ filter (λ x. slice_index_or loose.now.items x false) rows.old.items }
    ensures capacity { vec_capacity rows.new ≡ vec_capacity rows.old }
{
    rows.retain(|row| is_loose(loose, *row));
}
