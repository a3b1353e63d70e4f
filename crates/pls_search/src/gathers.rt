//! Workers that have not begun are joined, since the archive had no room for a start.
ghost use Rattle.std.specs.Prelude.{◌≡◌, ◌≢◌, ◌↔◌, ◌+◌, ◌≤◌, List, length, vec_len};
ghost use Rattle.pls_archive.specs.declared.point.Point.{Point};
ghost use Rattle.pls_pool.specs.declared.cause.Cause.TheVariants.{Memory};
ghost use Rattle.pls_search.specs.Teams.{IsSmall};
ghost use Rattle.pls_search.specs.Leaving.{OfTeam, Lacks};
ghost use Rattle.pls_search.specs.Crews.{IsNewCrew, Holds, HasFound, GivesBack};
ghost use Rattle.pls_search.specs.Seats.{hands_of, HasSeatEach};

use crate::crew::Crew;
use crate::end::End;
use crate::gate::Gate;
use crate::outcome::{NoMemory, Outcome};
use crate::task::Task;
use crate::worker::{Search, Worker};
use pls_archive::Shared;
use pls_pool::{Cause, Pool};
use std::alloc::Global;
use std::sync::Wait;

impl<'a, A: Shared, P: Pool<Task>, G: Gate> Search<'a, A, P, G> {
    // The first worker takes over a crew that has done nothing, in order of number.
    fn gather(&self, first: Worker<A, P>, mut crew: Crew<A, P>) -> Worker<A, P>
    where
        P::Seat: Drop,
        requires holds { Holds A.Shared A.Law.Rule P.Pool self.now 1 first }
        requires crew { IsNewCrew A.Shared P.Pool self.now 1 crew }
        requires few { vec_len crew.passes + 1 ≤ P.seats self.now.pool.now }
        ensures holds { Holds A.Shared A.Law.Rule P.Pool self.now (vec_len crew.passes + 1) result }
        ensures full { A.shows_full result.pass ↔ A.shows_full first.pass }
        ensures room { length (A.view first.pass).observed ≤ length (A.view result.pass).observed }
        ensures lacks { (starts : List Point) → OfTeam self.now.instance.now starts 1 (Lacks starts) (hands_of A.Shared P.Pool first)
            → OfTeam self.now.instance.now starts (vec_len crew.passes + 1) (Lacks starts) (hands_of A.Shared P.Pool result) }
    {
        let Some(other) = self.next_of(&mut crew) else {
            return first;
        };
        let mut worker = self.gather(first, crew);
        self.join(&mut worker, other);
        worker
    }

    /// The end of a search whose starts were not all submitted, for want of room or of memory: no worker explores.
    pub(crate) fn give_up<R: Wait>(
        &self,
        rt: &R,
        alloc: Global,
        first: Worker<A, P>,
        crew: Crew<A, P>,
        cause: Cause,
    ) -> Result<Outcome<A::Pass>, NoMemory<A::Pass>>
    where
        P::Seat: Drop,
        requires holds { Holds A.Shared A.Law.Rule P.Pool self.now 1 first }
        requires crew { IsNewCrew A.Shared P.Pool self.now 1 crew }
        requires all { (A.passes self.now.archive.now ≡ vec_len crew.passes + 1) × HasSeatEach A.Shared P.Pool self.now }
        requires full { cause ≢ Memory → A.shows_full first.pass × (A.safe self.now.archive.now ≤ length (A.view first.pass).observed) }
        ensures found { (starts : List Point) → IsSmall starts self.now.desk.now.moves
            → (cause ≢ Memory → OfTeam self.now.instance.now starts 1 (Lacks starts) (hands_of A.Shared P.Pool first))
            → HasFound A.Shared A.Law.Rule P.Pool self.now starts result }
        ensures back { GivesBack A.Shared A.Law.Rule P.Pool self.now result }
    {
        match cause {
            Cause::Memory => Err(NoMemory { pass: first.pass }),
            Cause::Spent | Cause::Full => {
                let worker = self.gather(first, crew);
                self.conclude(rt, alloc, worker, Err(Cause::Full))
            }
        }
    }
}
