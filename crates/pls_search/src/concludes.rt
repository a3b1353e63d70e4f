//! The end of a search: the joined worker goes on until no task is open, and asks for the members.
ghost use Rattle.std.specs.Prelude.{◌≡◌, List, OnOk, MatchOption, Err};
ghost use Rattle.pls_archive.specs.declared.point.Point.{Point};
ghost use Rattle.pls_pool.specs.declared.cause.Cause.TheVariants.{Memory};
ghost use Rattle.pls_problem.specs.Instance.{objectives};
ghost use Rattle.pls_search.specs.Teams.{IsSmall};
ghost use Rattle.pls_search.specs.Leaving.{IsUnhalted, Leaves, IsIdle, Ended};
ghost use Rattle.pls_search.specs.Crews.{Holds, HasFound, GivesBack};
ghost use Rattle.pls_search.specs.Outcomes.{Tells};
ghost use Rattle.pls_search.specs.Seats.{IsFresh, hands_of, HasSeatEach, IsShown};

use crate::departs::Left;
use crate::end::End;
use crate::gate::Gate;
use crate::outcome::{NoMemory, Outcome};
use crate::task::Task;
use crate::worker::{Search, Worker};
use pls_archive::Shared;
use pls_pool::{Cause, Pool};
use std::alloc::Global;
use std::sync::Wait;

// The end of a search whose workers left for this cause. There is none where memory ran out.
fn end_by(left: Result<(), Cause>) -> Option<End>
    ensures { MatchOption result (left ≡ Err Memory) (Tells left) }
{
    match left {
        Ok(()) => Some(End::Closed),
        Err(cause) => match cause {
            Cause::Spent => Some(End::Stopped),
            Cause::Full => Some(End::Full),
            Cause::Memory => None,
        },
    }
}

impl<'a, A: Shared, P: Pool<Task>, G: Gate> Search<'a, A, P, G> {
    // Where no worker halted the run, the joined one goes on until no task is open.
    fn go_on<R: Wait>(
        &self,
        rt: &R,
        worker: &mut Worker<A, P>,
        left: Result<(), Cause>,
    ) -> Result<(), Cause>
        requires holds { Holds A.Shared A.Law.Rule P.Pool self.now (A.passes self.now.archive.now) worker.old }
        requires all { HasSeatEach A.Shared P.Pool self.now }
        requires objectives { A.objectives self.now.archive.now ≡ objectives self.now.instance.now }
        requires fresh { OnOk left (IsFresh worker.old.desk_seat) }
        requires shown { IsShown A.Shared P.Pool self.now left worker.old.pass }
        ensures holds { Holds A.Shared A.Law.Rule P.Pool self.now (A.passes self.now.archive.now) worker.new }
        ensures shown { IsShown A.Shared P.Pool self.now result worker.new.pass }
        ensures leaves { (starts : List Point)
            → Leaves IsUnhalted self.now.instance.now starts (A.passes self.now.archive.now) left (hands_of A.Shared P.Pool worker.old)
            → Leaves IsIdle self.now.instance.now starts (A.passes self.now.archive.now) result (hands_of A.Shared P.Pool worker.new) }
    {
        match left {
            Ok(()) => self.work(rt, worker),
            Err(cause) => Err(cause),
        }
    }

    /// The joined worker asks for the members.
    pub(crate) fn conclude<R: Wait>(
        &self,
        rt: &R,
        alloc: Global,
        mut worker: Worker<A, P>,
        left: Result<(), Cause>,
    ) -> Result<Outcome<A::Pass>, NoMemory<A::Pass>>
    where
        P::Seat: Drop,
        requires holds { Holds A.Shared A.Law.Rule P.Pool self.now (A.passes self.now.archive.now) worker }
        requires all { HasSeatEach A.Shared P.Pool self.now }
        requires shown { IsShown A.Shared P.Pool self.now left worker.pass }
        ensures found { (starts : List Point) → IsSmall starts self.now.desk.now.moves
            → Ended self.now.instance.now starts (A.passes self.now.archive.now) left (hands_of A.Shared P.Pool worker)
            → HasFound A.Shared A.Law.Rule P.Pool self.now starts result }
        ensures back { GivesBack A.Shared A.Law.Rule P.Pool self.now result }
    {
        let Some(end) = end_by(left) else {
            return Err(NoMemory { pass: worker.pass });
        };
        // what the joined seats are told
        let _ = self.pool.take(rt, &mut worker.pool_seat);
        let _ = self.desk.halted(&mut worker.desk_seat);
        match self.archive.snapshot(rt, alloc, &mut worker.pass) {
            Ok((front, accepted)) => Ok(Outcome {
                end,
                front,
                explored: worker.explored,
                evaluated: worker.evaluated,
                accepted,
                pass: worker.pass,
            }),
            Err(_) => Err(NoMemory { pass: worker.pass }),
        }
    }

    /// The end of a search whose workers left for this cause, and were joined.
    pub(crate) fn finish<R: Wait>(
        &self,
        rt: &R,
        alloc: Global,
        left: Left<A, P>,
    ) -> Result<Outcome<A::Pass>, NoMemory<A::Pass>>
    where
        P::Seat: Drop,
        requires holds { Holds A.Shared A.Law.Rule P.Pool self.now (A.passes self.now.archive.now) left.worker }
        requires all { HasSeatEach A.Shared P.Pool self.now }
        requires objectives { A.objectives self.now.archive.now ≡ objectives self.now.instance.now }
        requires fresh { OnOk left.end (IsFresh left.worker.desk_seat) }
        requires shown { IsShown A.Shared P.Pool self.now left.end left.worker.pass }
        ensures found { (starts : List Point) → IsSmall starts self.now.desk.now.moves
            → Leaves IsUnhalted self.now.instance.now starts (A.passes self.now.archive.now) left.end (hands_of A.Shared P.Pool left.worker)
            → HasFound A.Shared A.Law.Rule P.Pool self.now starts result }
        ensures back { GivesBack A.Shared A.Law.Rule P.Pool self.now result }
    {
        let Left { mut worker, end } = left;
        let end = self.go_on(rt, &mut worker, end);
        self.conclude(rt, alloc, worker, end)
    }
}
