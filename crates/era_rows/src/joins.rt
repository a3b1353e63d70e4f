//! Joining one pass into another.
ghost use Rattle.std.specs.Prelude.{◌≡◌, ◌+◌, ◌≤◌, None, [], ◌++◌, replicate, vec_len, vec_capacity};
ghost use Rattle.era_rows.specs.declared.memory.TheConstants.{MEMORY_PLACES};
ghost use Rattle.era_rows.specs.Plays.{IsConsistent};
ghost use Rattle.era_rows.specs.Passes.{knows_of, known_of, marked_of, work_of, memory_of, IsPassOf, Joins};

use crate::law::Law;
use crate::memory::MEMORY_PLACES;
use crate::pass::Pass;
use crate::plays::{Absorb, Look};
use crate::publishes::loosen;
use crate::ring::merge;
use crate::rows::Rows;

impl<L: Law> Rows<L> {
    /// The pass takes over the fresh rows, the retired rows and the lists of another, whose fresh rows come after its own, and
    /// what the other recorded where no row was free, if it has recorded nothing itself. It keeps the longer one of what both
    /// have seen. It then looks at the first reservation, which tells that all its rows are different. It remembers nothing more;
    /// the marks and the looks of the other are gone.
    pub fn join(&self, pass: &mut Pass<L>, other: Pass<L>)
        requires pass { IsPassOf self.now pass.old }
        requires other { IsPassOf self.now other }
        requires unpinned { ((known_of pass.old).core.pinned ≡ None) × ((known_of other).core.pinned ≡ None) }
        requires no_work { (work_of pass.old ≡ []) × (work_of other ≡ []) }
        ensures pass { IsPassOf self.now pass.new }
        ensures number { pass.new.number ≡ pass.old.number }
        ensures work { work_of pass.new ≡ [] }
        ensures memory { memory_of pass.new ≡ replicate MEMORY_PLACES None }
        ensures marks { marked_of pass.new ≡ marked_of pass.old }
        ensures joined { Joins pass.old other pass.new }
        ensures consistent { IsConsistent L.caller L.stamp L.accepted L.lawful L.stands L.right (knows_of pass.new) }
    {
        let Pass {
            seat,
            fresh,
            retired,
            ..
        } = other;
        self.table.shared.join_seat::<Absorb>(&mut pass.seat, seat);
        let place = self.reservation_place(0);
        self.table.shared.load::<Look<L>>(&mut pass.seat, place);
        append(&mut pass.fresh, &fresh);
        loosen(&mut pass.loose, &fresh);
        merge(&mut pass.retired, retired);
        pass.memory = [None; MEMORY_PLACES];
    }
}

// Puts these behind those that are there.
fn append(items: &mut Vec<u32>, more: &Vec<u32>)
    requires { vec_len items.old + vec_len more.now ≤ vec_capacity items.old }
    ensures items { items.new.items ≡ items.old.items ++ more.now.items }
    ensures capacity { vec_capacity items.new ≡ vec_capacity items.old }
{
    for i in 0..more.len() {
        items.push_reserved(more[i]);
    }
}
