//! Submitting the starts.
ghost use Rattle.std.specs.Prelude.{◌≡◌, ◌≢◌, ◌≤◌, [], OnOk, length, All, true, map, IfErr};
ghost use Rattle.pls_pool.specs.declared.cause.Cause.TheVariants.{Memory};
ghost use Rattle.pls_problem.specs.Instance.{objectives, feasible};
ghost use Rattle.pls_search.specs.Leaving.{AreReady, OfTeam, Lacks};
ghost use Rattle.pls_search.specs.Crews.{Holds};
ghost use Rattle.pls_search.specs.Neighbours.{point_of};
ghost use Rattle.pls_search.specs.Steps.{UnlessMemory, SubmitsAll};
ghost use Rattle.pls_search.specs.Seats.{IsFresh, hands_of, HasSeatEach, IsSeated, IsNewAt, StaysInOrder, Keeps};

use crate::gate::Gate;
use crate::task::Task;
use crate::worker::{Search, Worker};
use pls_archive::{Point, Shared};
use pls_pool::{Cause, Pool};
use pls_vectors::Sol;
use std::sync::Wait;

impl<'a, A: Shared, P: Pool<Task>, G: Gate> Search<'a, A, P, G> {
    // Submits feasible solutions in order, each with its value.
    fn submit_all<R: Wait>(
        &self,
        rt: &R,
        worker: &mut Worker<A, P>,
        starts: &[Sol],
    ) -> Result<(), Cause>
        requires seated { IsSeated A.Shared P.Pool self.now worker.old }
        requires objectives { A.objectives self.now.archive.now ≡ objectives self.now.instance.now }
        requires starts { All (λ s. feasible self.now.instance.now s ≡ true) starts.now }
        ensures submits { UnlessMemory result (SubmitsAll self.now.instance.now (map (point_of self.now.instance.now) starts.now) (hands_of A.Shared P.Pool worker.old) (hands_of A.Shared P.Pool worker.new)) }
        ensures keeps { Keeps A.Shared A.Law.Rule P.Pool self.now [] result worker.old worker.new }
        ensures in_order { StaysInOrder A.Shared P.Pool self.now result worker.old worker.new }
    {
        for sol in starts {
            let point = Point {
                value: self.instance.value(sol),
                sol: *sol,
            };
            self.submit(rt, worker, &point)?;
        }
        Ok(())
    }

    /// The first worker submits the starts in order, each with its value, and halts the run where the archive has no room for one,
    /// or memory runs out.
    pub(crate) fn submit_starts<R: Wait>(
        &self,
        rt: &R,
        worker: &mut Worker<A, P>,
        starts: &[Sol],
    ) -> Result<(), Cause>
        requires new { IsNewAt A.Shared P.Pool self.now 0 worker.old }
        requires objectives { A.objectives self.now.archive.now ≡ objectives self.now.instance.now }
        requires starts { All (λ s. feasible self.now.instance.now s ≡ true) starts.now }
        requires all { HasSeatEach A.Shared P.Pool self.now }
        ensures holds { Holds A.Shared A.Law.Rule P.Pool self.now 1 worker.new }
        ensures ready { OnOk result (IsFresh worker.new.desk_seat × (¬ A.shows_full worker.new.pass)
            × AreReady self.now.instance.now (map (point_of self.now.instance.now) starts.now) 1 (hands_of A.Shared P.Pool worker.new)) }
        ensures lacks { IfErr result (λ cause. cause ≢ Memory → A.shows_full worker.new.pass × (A.safe self.now.archive.now ≤ length (A.view worker.new.pass).observed)
            × OfTeam self.now.instance.now (map (point_of self.now.instance.now) starts.now) 1 (Lacks (map (point_of self.now.instance.now) starts.now)) (hands_of A.Shared P.Pool worker.new)) }
    {
        let end = self.submit_all(rt, worker, starts);
        self.halt_by(worker, end)
    }
}
