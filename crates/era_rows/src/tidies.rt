//! Freeing retired rows that no reservation blocks.
ghost use Rattle.std.specs.Prelude.{◌≡◌, ℕ, ◌+◌, ◌<◌, ◌⊎◌, true, Some, ◌∷◌, length};
ghost use Rattle.era_core.specs.Views.{rows_in, without_row};
ghost use Rattle.era_rows.specs.Known.{looking_at};
ghost use Rattle.era_rows.specs.Passes.{known_of, IsPassOf, HasSame, blocked, Scans, Tidies};
ghost use Rattle.era_rows.specs.Ring.{pairs_in, is_first_clear};

use crate::law::Law;
use crate::pass::Pass;
use crate::plays::{Free, Look};
use crate::ring::is_oldest_clear;
use crate::rows::Rows;
use era_core::{ROOT_ROWS, lesser};

impl<L: Law> Rows<L> {
    // Looks at the reservation of a pass.
    fn look(&self, pass: &mut Pass<L>, number: u32) -> u64
        requires number { number < self.now.passes }
        requires pass { IsPassOf self.now pass.old }
        requires turn { (number ≡ 0) ⊎ (number ≡ (known_of pass.old).core.scanned) }
        ensures pass { IsPassOf self.now pass.new }
        ensures same { HasSame pass.old pass.new }
        ensures looked { known_of pass.new ≡ looking_at number result (known_of pass.old) }
        ensures own { (known_of pass.old).core.number ≡ Some number → result ≡ (known_of pass.old).reserves }
    {
        let place = self.reservation_place(number);
        self.table.shared.load::<Look<L>>(&mut pass.seat, place)
    }

    // Looks at each reservation: the least version that one names, if one names any.
    fn least_reserved(&self, pass: &mut Pass<L>) -> Option<u64>
        requires { IsPassOf self.now pass.old }
        ensures pass { IsPassOf self.now pass.new }
        ensures same { HasSame pass.old pass.new }
        ensures scanned { Scans result (known_of pass.old) (known_of pass.new) }
    {
        let mut least = None;
        for j in 0..self.passes {
            let word = self.look(pass, j);
            least = lesser(least, word);
        }
        least
    }

    // Frees the retired row that waits longest, where a whole scan has cleared its version. The next search begins with that row.
    fn free_oldest(&self, pass: &mut Pass<L>)
        requires pass { IsPassOf self.now pass.old }
        requires scanned { (known_of pass.old).core.scanned ≡ self.now.passes }
        requires cleared { is_first_clear (known_of pass.old).core.least (pairs_in pass.old.retired.items) ≡ true }
        ensures pass { IsPassOf self.now pass.new }
        ensures same { HasSame pass.old pass.new }
        ensures freed { (p : ℕ × ℕ) × (pairs_in pass.old.retired.items ≡ p ∷ pairs_in pass.new.retired.items) × (known_of pass.new ≡ record (known_of pass.old) { core = record (known_of pass.old).core { retired = without_row p.1 (known_of pass.old).core.retired } }) }
    {
        let Some(word) = pass.retired.pop_front() else {
            unreachable!()
        };
        let row = (word % ROOT_ROWS) as u32;
        let place = self.owner_place(row);
        self.table.shared.store::<Free>(&mut pass.seat, place, 0);
        pass.freed.push(row);
    }

    // Frees each retired row whose version a whole scan has cleared, those that wait longest: how many.
    fn free_clear(&self, pass: &mut Pass<L>, least: Option<u64>) -> u32
        requires pass { IsPassOf self.now pass.old }
        requires scanned { (known_of pass.old).core.scanned ≡ self.now.passes }
        requires least { (known_of pass.old).core.least ≡ least }
        ensures pass { IsPassOf self.now pass.new }
        ensures same { HasSame pass.old pass.new }
        ensures freed { result + length (rows_in (known_of pass.new).core.retired) ≡ length (rows_in (known_of pass.old).core.retired) }
        ensures left { known_of pass.new ≡ record (known_of pass.old) { core = record (known_of pass.old).core { retired = (known_of pass.new).core.retired } } }
        ensures blocked { (known_of pass.new).core.retired ≡ blocked least (known_of pass.old).core.retired }
    {
        let mut freed = 0;
        while is_oldest_clear(&pass.retired, least) {
            self.free_oldest(pass);
            freed += 1;
        }
        freed
    }

    /// Looks at each reservation once, and frees each batch of the pass that none of them blocks: how many rows are freed. It
    /// looks at no batch behind the first that is blocked. The next search begins with rows that were freed, if any were.
    pub fn tidy(&self, pass: &mut Pass<L>) -> u32
        requires { IsPassOf self.now pass.old }
        ensures pass { IsPassOf self.now pass.new }
        ensures same { HasSame pass.old pass.new }
        ensures tidied { Tidies (known_of pass.old) (known_of pass.new) }
        ensures freed { result + length (rows_in (known_of pass.new).core.retired) ≡ length (rows_in (known_of pass.old).core.retired) }
    {
        let least = self.least_reserved(pass);
        self.free_clear(pass, least)
    }
}
