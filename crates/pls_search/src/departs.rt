//! A worker in a thread of its own: how it leaves, and what the thread promises of that.
ghost use Rattle.std.specs.Prelude.{◌≡◌};
ghost use Rattle.pls_problem.specs.Instance.{objectives};
ghost use Rattle.pls_search.specs.Crews.{HasDeparted};
ghost use Rattle.pls_search.specs.Seats.{IsFresh, HasSeatEach, IsSeated};

use crate::gate::Gate;
use crate::task::Task;
use crate::worker::{Search, Worker};
use pls_archive::Shared;
use pls_pool::{Cause, Desk, Pool};
use pls_problem::Instance;
use std::snapshot::Snapshot;
use std::sync::Wait;
use std::thread::Promise;

/// A worker that left, and why it halted the run, if it did.
#[derive(Drop)]
pub(crate) struct Left<A: Shared, P: Pool<Task>> {
    pub worker: Worker<A, P>,
    pub end: Result<(), Cause>,
}

/// The promise of a worker's thread. It has no bytes.
#[derive(Drop)]
pub(crate) struct Departing<'a, A: Shared, P: Pool<Task>, G: Gate> {
    pub run: Snapshot<Search<'a, A, P, G>>,
    pub before: Snapshot<Worker<A, P>>,
}

impl<'a, A: Shared, P: Pool<Task>, G: Gate> Promise<Left<A, P>> for Departing<'a, A, P, G> {
    ghost kept_by = { λ p left. HasDeparted A.Shared A.Law.Rule P.Pool p.run.value p.before.value left };
}

impl<'a, A: Shared, P: Pool<Task>, G: Gate> Search<'a, A, P, G> {
    /// Lets a worker explore until it leaves.
    pub(crate) fn depart<R: Wait>(&self, rt: &R, mut worker: Worker<A, P>) -> Left<A, P>
        requires seated { IsSeated A.Shared P.Pool self.now worker }
        requires objectives { A.objectives self.now.archive.now ≡ objectives self.now.instance.now }
        requires fresh { IsFresh worker.desk_seat }
        requires all { HasSeatEach A.Shared P.Pool self.now }
        ensures { HasDeparted A.Shared A.Law.Rule P.Pool self.now worker result }
    {
        let end = self.work(rt, &mut worker);
        Left { worker, end }
    }
}
