//! Taking free rows and giving them back.
ghost use Rattle.std.specs.Prelude.{◌≡◌, ℕ, ◌<◌, ◌≤◌, IsTrue, Some, None, false, [], ◌∷◌, vec_capacity};
ghost use Rattle.era_core.specs.Lists.{times, In, without};
ghost use Rattle.era_core.specs.Words.{owner_at};
ghost use Rattle.era_rows.specs.Known.{finding, taking_row, recording};
ghost use Rattle.era_rows.specs.Held.{IsAlone, IsOwn};
ghost use Rattle.era_rows.specs.Plays.{IsUnused};
ghost use Rattle.era_rows.specs.Passes.{known_of, IsPassOf, HasSame, Searches, SearchesSome, SearchesOrFull, giving_back};

use crate::law::Law;
use crate::pass::Pass;
use crate::plays::{Ends, Free, Goes, Missing, Take};
use crate::rows::Rows;
use era_core::remove_row;

impl<L: Law> Rows<L> {
    // Takes the row, if it has no owner, and else records what M says.
    fn try_take<M: Missing>(&self, pass: &mut Pass<L>, row: u32) -> bool
        requires row { row < self.now.rows }
        requires pass { IsPassOf self.now pass.old }
        ensures pass { IsPassOf self.now pass.new }
        ensures same { HasSame pass.old pass.new }
        ensures freed { pass.new.freed ≡ pass.old.freed }
        ensures next { pass.new.next ≡ pass.old.next }
        ensures taken { IsTrue result → (known_of pass.new ≡ taking_row row (known_of pass.old)) × IsUnused row (known_of pass.old) }
        ensures busy { result ≡ false → (w : ℕ) × (0 < w) × (known_of pass.new ≡ recording M.full (finding (owner_at self.now.passes self.now.rows row) w (known_of pass.old))) }
        ensures alone { result ≡ false → IsAlone (known_of pass.old) → IsOwn row (known_of pass.old) }
    {
        let word = u64::from(pass.number) + 1;
        let place = self.owner_place(row);
        let found = self
            .table
            .shared
            .compare_exchange::<Take<M>>(&mut pass.seat, place, 0, word);
        if found != 0 {
            return false;
        }
        pass.fresh.push_reserved(row);
        pass.loose[row as usize] = true;
        true
    }

    // Takes the first of these rows that has no owner.
    fn take_among(&self, pass: &mut Pass<L>, from: u32, to: u32) -> Option<u32>
        requires rows { (from ≤ to) × (to ≤ self.now.rows) }
        requires pass { IsPassOf self.now pass.old }
        ensures pass { IsPassOf self.now pass.new }
        ensures same { HasSame pass.old pass.new }
        ensures searched { Searches from to (known_of pass.old) (known_of pass.new) result }
    {
        for row in from..to {
            if self.try_take::<Goes>(pass, row) {
                return Some(row);
            }
        }
        None
    }

    // Takes one of the rows that the pass freed last, the last one first. Those that it tries are no longer kept.
    fn take_freed(&self, pass: &mut Pass<L>) -> Option<u32>
        requires { IsPassOf self.now pass.old }
        ensures pass { IsPassOf self.now pass.new }
        ensures same { HasSame pass.old pass.new }
        ensures searched { SearchesSome self.now.rows (known_of pass.old) (known_of pass.new) result }
    {
        while let Some(row) = pass.freed.pop() {
            if row < self.rows && self.try_take::<Goes>(pass, row) {
                return Some(row);
            }
        }
        None
    }

    // Takes the first row that has no owner, from where the last one was found on.
    fn take_in_turn(&self, pass: &mut Pass<L>) -> Option<u32>
        requires { IsPassOf self.now pass.old }
        ensures pass { IsPassOf self.now pass.new }
        ensures same { HasSame pass.old pass.new }
        ensures searched { Searches 0 self.now.rows (known_of pass.old) (known_of pass.new) result }
    {
        let next = pass.next;
        if let Some(row) = self.take_among(pass, next, self.rows) {
            return Some(row);
        }
        self.take_among(pass, 0, next)
    }

    /// Takes a free row, which is in no pinned tree: see [`free_rows_are_unused`](crate::free_rows_are_unused). The search begins
    /// with the rows that this pass freed last, the last one first, and goes on from the row after the last one that it took
    /// otherwise. The answer is None only where this call found an owner in each row.
    pub fn take(&self, pass: &mut Pass<L>) -> Option<u32>
        requires { IsPassOf self.now pass.old }
        ensures pass { IsPassOf self.now pass.new }
        ensures same { HasSame pass.old pass.new }
        ensures searched { Searches 0 self.now.rows (known_of pass.old) (known_of pass.new) result }
    {
        if let Some(row) = self.take_freed(pass) {
            return Some(row);
        }
        let row = self.take_in_turn(pass)?;
        pass.next = row + 1;
        Some(row)
    }

    // Takes the first row that has no owner, from this one on, and looks at the one before it last.
    fn take_in_turn_or_full(&self, pass: &mut Pass<L>, last: u32) -> Option<u32>
        requires last { last < self.now.rows }
        requires pass { IsPassOf self.now pass.old }
        ensures pass { IsPassOf self.now pass.new }
        ensures same { HasSame pass.old pass.new }
        ensures searched { SearchesOrFull self.now.rows (known_of pass.old) (known_of pass.new) result }
    {
        if let Some(row) = self.take_among(pass, last + 1, self.rows) {
            return Some(row);
        }
        if let Some(row) = self.take_among(pass, 0, last) {
            return Some(row);
        }
        if self.try_take::<Ends>(pass, last) {
            Some(last)
        } else {
            None
        }
    }

    /// As `take`, by a pass that has pinned a version. Where the answer is None the pass records the looks since its `pin`,
    /// which show that no row is free and, after a `tidy`, what blocks each batch that it kept; the versions of these batches;
    /// how many fresh rows it has; and its number.
    pub fn take_or_full(&self, pass: &mut Pass<L>) -> Option<u32>
        requires pass { IsPassOf self.now pass.old }
        requires pinned { (n p : ℕ) × ((known_of pass.old).core.pinned ≡ Some (n, p)) }
        ensures pass { IsPassOf self.now pass.new }
        ensures same { HasSame pass.old pass.new }
        ensures searched { SearchesOrFull self.now.rows (known_of pass.old) (known_of pass.new) result }
    {
        let last = if pass.next == 0 {
            self.rows - 1
        } else {
            pass.next - 1
        };
        let row = self.take_in_turn_or_full(pass, last)?;
        pass.next = row + 1;
        Some(row)
    }

    /// Gives a fresh row of the pass back, in a time that does not grow with its fresh rows if it is the one that was taken last.
    /// The next search begins with that row.
    pub fn give_back(&self, pass: &mut Pass<L>, row: u32)
        requires pass { IsPassOf self.now pass.old }
        requires fresh { In row (known_of pass.old).core.fresh }
        ensures pass { IsPassOf self.now pass.new }
        ensures same { HasSame pass.old pass.new }
        ensures freed { known_of pass.new ≡ giving_back row (known_of pass.old) }
    {
        let at = self.owner_place(row);
        self.table.shared.store::<Free>(&mut pass.seat, at, 0);
        drop_row(&mut pass.fresh, row);
        pass.loose[row as usize] = false;
        pass.freed.push(row);
    }
}

// Drops a row that stands there once.
fn drop_row(rows: &mut Vec<u32>, row: u32)
    requires once { times row rows.old.items ≤ 1 }
    ensures items { rows.new.items ≡ without (row ∷ []) rows.old.items }
    ensures capacity { vec_capacity rows.new ≡ vec_capacity rows.old }
{
    let len = rows.len();
    if len > 0 && rows[len - 1] == row {
        rows.truncate(len - 1);
    } else {
        remove_row(rows, row);
    }
}
