//! Workers explore together, each in a thread of its own, and the first takes over what the others did.
ghost use Rattle.std.specs.Prelude.{◌≡◌, ◌+◌, ◌≤◌, length};
ghost use Rattle.pls_pool.specs.Accounts.{Apart};
ghost use Rattle.pls_problem.specs.Instance.{objectives};
ghost use Rattle.pls_search.specs.Teams.{JoinsHands};
ghost use Rattle.pls_search.specs.Leaving.{graver};
ghost use Rattle.pls_search.specs.Crews.{MayExplore, HasDeparted, HaveLeft};
ghost use Rattle.pls_search.specs.Seats.{IsFresh, hands_of, HasSeatEach, IsSeated, IsShown, HasLists};

use crate::crew::Crew;
use crate::departs::{Departing, Left};
use crate::gate::Gate;
use crate::graver::graver;
use crate::task::Task;
use crate::worker::{Search, Worker};
use pls_archive::Shared;
use pls_pool::Pool;
use std::snapshot::Snapshot;
use std::sync::Wait;
use std::thread::{Scope, Threads};

impl<'a, A: Shared, P: Pool<Task>, G: Gate> Search<'a, A, P, G> {
    // The first worker takes over what another did, and the graver cause.
    fn take_over(&self, left: Left<A, P>, other: Left<A, P>) -> Left<A, P>
        requires seated { IsSeated A.Shared P.Pool self.now left.worker × IsSeated A.Shared P.Pool self.now other.worker }
        requires apart { Apart (P.account left.worker.pool_seat).numbers (P.account other.worker.pool_seat).numbers }
        requires few { length (P.account left.worker.pool_seat).numbers + length (P.account other.worker.pool_seat).numbers ≤ P.seats self.now.pool.now }
        requires shown { IsShown A.Shared P.Pool self.now left.end left.worker.pass × IsShown A.Shared P.Pool self.now other.end other.worker.pass }
        ensures seated { IsSeated A.Shared P.Pool self.now result.worker }
        ensures joins { JoinsHands (hands_of A.Shared P.Pool left.worker) (hands_of A.Shared P.Pool other.worker) (hands_of A.Shared P.Pool result.worker) }
        ensures lists { HasLists A.Shared A.Law.Rule P.Pool self.now result.worker.pass }
        ensures end { result.end ≡ graver left.end other.end }
        ensures shown { IsShown A.Shared P.Pool self.now result.end result.worker.pass }
    {
        let Left { mut worker, end } = left;
        self.join(&mut worker, other.worker);
        Left {
            worker,
            end: graver(end, other.end),
        }
    }

    /// The workers explore, each in a thread of its own, where one can be started. A start that is refused is made up for after
    /// the first worker has left.
    pub(crate) fn together<'s, E, R: Threads + Wait + Sync>(
        &'s self,
        scope: &Scope<'s, E>,
        rt: &'s R,
        first: Worker<A, P>,
        mut crew: Crew<A, P>,
    ) -> Left<A, P>
    where
        P: Sync,
        A::Pass: 's,
        P::Seat: Send + Drop + 's,
        requires ready { MayExplore A.Shared A.Law.Rule P.Pool self.now first crew }
        ensures { HaveLeft A.Shared A.Law.Rule P.Pool self.now first crew result }
    {
        let Some(other) = self.next_of(&mut crew) else {
            return self.depart(rt, first);
        };
        let promise = Departing {
            run: Snapshot::of(self),
            before: Snapshot::of(&other),
        };
        let started = scope.spawn_with(
            promise,
            move || -> Left<A, P>
                requires { IsSeated A.Shared P.Pool self.now other × (A.objectives self.now.archive.now ≡ objectives self.now.instance.now)
                    × IsFresh other.desk_seat × HasSeatEach A.Shared P.Pool self.now }
                ensures { HasDeparted A.Shared A.Law.Rule P.Pool self.entry.now other result }
            { self.depart(rt, other) },
        );
        let left = self.together(scope, rt, first, crew);
        let other = match started {
            Ok(handle) => handle.join(rt),
            Err(refused) => (refused.value)(),
        };
        self.take_over(left, other)
    }
}
