//! The fresh rows of a new tree: from the root on, each fresh row that a reached row links.
ghost use Rattle.std.specs.Prelude.{◌≡◌, ℕ, ◌<◌, ◌≤◌, ◌⊎◌, true, false, if◌then◌else◌, Some, [], ◌∷◌, ◌++◌, length, slice_index_or, slice_set, vec_capacity};
ghost use Rattle.era_core.specs.Lists.{In, is_in};
ghost use Rattle.era_core.specs.Versions.{Cell, known_links, Covers};
ghost use Rattle.era_rows.specs.Trees.{IsTree};
ghost use Rattle.era_rows.specs.Known.{pinned_copy, known_words, copy_known};
ghost use Rattle.era_rows.specs.Rule.{knowing};
ghost use Rattle.era_rows.specs.Held.{HoldsRows, HoldsTree};
ghost use Rattle.era_rows.specs.Passes.{IsSeatOf, HasRead};
ghost use Rattle.era_rows.specs.Reach.{IsReached, AddsLinks, ReachesTree};
ghost use mathlib.Core.Option.{some};
ghost use lib.ListN.{get_elem?};

use crate::law::Law;
use crate::rows::Rows;
use crate::views::Knows;
use atomic_table::Seat;
use era_core::{KINDS, MOST_LINKS};

impl<L: Law> Rows<L> {
    // A row that is loose is reached, and is loose no more.
    fn reach_row(loose: &mut Vec<bool>, reached: &mut Vec<u32>, row: u32)
        requires row { row < length loose.old.items }
        requires room { slice_index_or loose.old.items row false ≡ true → length reached.old.items < vec_capacity reached.old }
        ensures loose { loose.new.items ≡ slice_set loose.old.items row false }
        ensures reached { reached.new.items ≡ (if slice_index_or loose.old.items row false then reached.old.items ++ row ∷ [] else reached.old.items) }
        ensures capacity { vec_capacity reached.new ≡ vec_capacity reached.old }
    {
        if loose[row as usize] {
            loose[row as usize] = false;
            reached.push_reserved(row);
        }
    }

    // Reaches the loose rows that a reached row links.
    fn reach_links(
        &self,
        seat: &mut Seat<(), Knows<L::Entry>>,
        loose: &mut Vec<bool>,
        reached: &mut Vec<u32>,
        row: u32,
    )
        requires seat { IsSeatOf self.now seat.old }
        requires number { (j : ℕ) × (seat.old.me.0.view.core.number ≡ Some j) }
        requires row { row < self.now.rows }
        requires fresh { In row seat.old.me.0.view.core.fresh }
        requires covered { Covers (known_words seat.old.me.0.view) row }
        requires links { (x : ℕ) → In x (known_links (known_words seat.old.me.0.view) row) → x < self.now.rows }
        requires reached { IsReached self.now.rows seat.old.me.0.view.core.fresh loose.old.items reached.old.items }
        requires inside { (x : ℕ) → In x seat.old.me.0.view.core.fresh → x < self.now.rows }
        requires room { self.now.rows ≤ vec_capacity reached.old }
        ensures seat { IsSeatOf self.now seat.new }
        ensures same { (seat.new.me.0 ≡ knowing seat.old.me.0.seen seat.old.me.0.lists seat.new.me.0.view) × (seat.new.me.1 ≡ seat.old.me.1) }
        ensures read { HasRead seat.old.me.0.view seat.new.me.0.view }
        ensures reached { IsReached self.now.rows seat.old.me.0.view.core.fresh loose.new.items reached.new.items }
        ensures links { AddsLinks (known_links (known_words seat.old.me.0.view) row) seat.old.me.0.view.core.fresh reached.old.items reached.new.items }
        ensures capacity { vec_capacity reached.new ≡ vec_capacity reached.old }
    {
        let count = (self.read_by(seat, row, 0) / KINDS).min(MOST_LINKS as u64) as u32;
        for place in 1..count + 1 {
            let link = self.read_by(seat, row, place);
            Rows::<L>::reach_row(loose, reached, link as u32);
        }
    }

    // Reaches the fresh rows of the tree at a fresh row.
    pub(crate) fn reach(
        &self,
        seat: &mut Seat<(), Knows<L::Entry>>,
        loose: &mut Vec<bool>,
        reached: &mut Vec<u32>,
        root: u32,
    )
        requires seat { IsSeatOf self.now seat.old }
        requires number { (j : ℕ) × (seat.old.me.0.view.core.number ≡ Some j) }
        requires root { In root seat.old.me.0.view.core.fresh }
        requires tree { IsTree (copy_known seat.old.me.0.view root) }
        requires parts { (x : ℕ) → In x (copy_known seat.old.me.0.view root).rows → In x seat.old.me.0.view.core.fresh ⊎ In x (pinned_copy seat.old.me.0.view).rows }
        requires holds { HoldsRows seat.old.me.0.view }
        requires pinned { HoldsTree seat.old.me.0.view }
        requires written { (i : ℕ) (c : Cell) → get_elem? seat.old.me.0.view.written i ≡ some c → In c.row seat.old.me.0.view.core.fresh }
        requires counted { length loose.old.items ≡ self.now.rows }
        requires flagged { (x : ℕ) → x < self.now.rows → slice_index_or loose.old.items x false ≡ is_in x seat.old.me.0.view.core.fresh }
        requires room { self.now.rows ≤ vec_capacity reached.old }
        ensures seat { IsSeatOf self.now seat.new }
        ensures same { (seat.new.me.0 ≡ knowing seat.old.me.0.seen seat.old.me.0.lists seat.new.me.0.view) × (seat.new.me.1 ≡ seat.old.me.1) }
        ensures read { HasRead seat.old.me.0.view seat.new.me.0.view }
        ensures reached { ReachesTree root seat.old.me.0.view loose.new.items reached.new.items }
        ensures capacity { vec_capacity reached.new ≡ vec_capacity reached.old }
    {
        reached.clear();
        Rows::<L>::reach_row(loose, reached, root);
        let mut next = 0;
        while next < reached.len() {
            let row = reached[next];
            self.reach_links(seat, loose, reached, row);
            next += 1;
        }
    }
}
