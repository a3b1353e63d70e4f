//! Reading words, and writing them into fresh rows.
ghost use Rattle.std.specs.Prelude.{◌≡◌, ℕ, ◌<◌, Some};
ghost use Rattle.era_core.specs.Lists.{In};
ghost use Rattle.era_core.specs.Words.{cell_at};
ghost use Rattle.era_core.specs.Versions.{look_up};
ghost use Rattle.era_rows.specs.Known.{pinned_copy, known_words, writing, reading_word};
ghost use Rattle.era_rows.specs.Rule.{knowing};
ghost use Rattle.era_rows.specs.Passes.{known_of, IsSeatOf, IsPassOf, HasSame, IsReadable};

use crate::law::Law;
use crate::pass::Pass;
use crate::plays::{Read, Write};
use crate::rows::Rows;
use crate::views::Knows;
use atomic_table::Seat;
use era_core::WIDTH;

impl<L: Law> Rows<L> {
    // Reads a word by a seat.
    pub(crate) fn read_by(&self, seat: &mut Seat<(), Knows<L::Entry>>, row: u32, place: u32) -> u64
        requires seat { IsSeatOf self.now seat.old }
        requires number { (j : ℕ) × (seat.old.me.0.view.core.number ≡ Some j) }
        requires row { IsReadable row seat.old.me.0.view }
        requires places { (row < self.now.rows) × (place < WIDTH) }
        ensures seat { IsSeatOf self.now seat.new }
        ensures now { seat.new.me ≡ (knowing seat.old.me.0.seen seat.old.me.0.lists (reading_word (cell_at self.now.passes self.now.rows row place) result seat.old.me.0.view), seat.old.me.1) }
        ensures word { (w : ℕ) → look_up (known_words seat.old.me.0.view) row place ≡ Some w → result ≡ w }
        ensures version { (w : ℕ) → look_up (pinned_copy seat.old.me.0.view).cells row place ≡ Some w → result ≡ w }
    {
        let at = self.cell_place(row, place);
        self.table.shared.load::<Read>(seat, at)
    }

    /// The word of a row at a place: of the pinned version, or the word last written into a fresh row. Of a place that was
    /// never written nothing is said but that a word is there.
    pub fn read(&self, pass: &mut Pass<L>, row: u32, place: u32) -> u64
        requires pass { IsPassOf self.now pass.old }
        requires row { IsReadable row (known_of pass.old) }
        requires place { place < WIDTH }
        ensures pass { IsPassOf self.now pass.new }
        ensures same { HasSame pass.old pass.new }
        ensures known { known_of pass.new ≡ reading_word (cell_at self.now.passes self.now.rows row place) result (known_of pass.old) }
        ensures word { (w : ℕ) → look_up (known_words (known_of pass.old)) row place ≡ Some w → result ≡ w }
        ensures version { (w : ℕ) → look_up (pinned_copy (known_of pass.old)).cells row place ≡ Some w → result ≡ w }
    {
        self.read_by(&mut pass.seat, row, place)
    }

    /// Writes a word into a fresh row of the pass.
    pub fn write(&self, pass: &mut Pass<L>, row: u32, place: u32, word: u64)
        requires pass { IsPassOf self.now pass.old }
        requires fresh { In row (known_of pass.old).core.fresh }
        requires place { place < WIDTH }
        ensures pass { IsPassOf self.now pass.new }
        ensures same { HasSame pass.old pass.new }
        ensures written { known_of pass.new ≡ writing row place word (known_of pass.old) }
    {
        let at = self.cell_place(row, place);
        self.table.shared.store::<Write>(&mut pass.seat, at, word);
    }
}
