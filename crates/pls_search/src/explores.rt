//! Exploring a task.
ghost use Rattle.std.specs.Prelude.{◌≡◌, ◌≢◌, [], Err, length, true, not, ◌||◌};
ghost use Rattle.pls_pool.specs.declared.cause.Cause.TheVariants.{Spent};
ghost use Rattle.pls_problem.specs.Instance.{objectives, feasible};
ghost use Rattle.pls_search.specs.Workers.{task_of};
ghost use Rattle.pls_search.specs.Steps.{UnlessMemory, SubmitsNeighbour, SubmitsNeighbours, ExploresTask};
ghost use Rattle.pls_archive.specs.Lists.{one_if};
ghost use Rattle.pls_search.specs.Seats.{IsFresh, hands_of, IsSeated, StaysInOrder, Keeps};

use crate::gate::Gate;
use crate::task::Task;
use crate::worker::{Search, Worker};
use pls_archive::{Point, Shared};
use pls_pool::{Cause, Draw, Pool};
use std::sync::Wait;

impl<'a, A: Shared, P: Pool<Task>, G: Gate> Search<'a, A, P, G> {
    // Draws a move, and submits a neighbour.
    fn submit_neighbour<R: Wait>(
        &self,
        rt: &R,
        worker: &mut Worker<A, P>,
        point: &Point,
    ) -> Result<(), Cause>
        requires seated { IsSeated A.Shared P.Pool self.now worker.old }
        requires parts { length point.now.value ≡ A.objectives self.now.archive.now }
        requires fresh { IsFresh worker.old.desk_seat }
        ensures submits { UnlessMemory result (SubmitsNeighbour point.now (hands_of A.Shared P.Pool worker.old) (hands_of A.Shared P.Pool worker.new)) }
        ensures keeps { Keeps A.Shared A.Law.Rule P.Pool self.now [] result worker.old worker.new }
        ensures fresh { result ≢ Err Spent → IsFresh worker.new.desk_seat }
        ensures in_order { StaysInOrder A.Shared P.Pool self.now result worker.old worker.new }
    {
        match self.desk.draw(&mut worker.desk_seat) {
            Draw::Go => self.submit(rt, worker, point)?,
            Draw::Spent => return Err(Cause::Spent),
        }
        worker.evaluated = worker.evaluated.wrapping_add(1);
        Ok(())
    }

    // Submits the neighbours of a feasible point, in order.
    fn submit_neighbours<R: Wait>(
        &self,
        rt: &R,
        worker: &mut Worker<A, P>,
        of: &Point,
    ) -> Result<(), Cause>
        requires seated { IsSeated A.Shared P.Pool self.now worker.old }
        requires objectives { A.objectives self.now.archive.now ≡ objectives self.now.instance.now }
        requires feasible { feasible self.now.instance.now of.now.sol ≡ true }
        requires fresh { IsFresh worker.old.desk_seat }
        ensures submits { UnlessMemory result (SubmitsNeighbours self.now.instance.now of.now (hands_of A.Shared P.Pool worker.old) (hands_of A.Shared P.Pool worker.new)) }
        ensures keeps { Keeps A.Shared A.Law.Rule P.Pool self.now [] result worker.old worker.new }
        ensures fresh { result ≢ Err Spent → IsFresh worker.new.desk_seat }
        ensures in_order { StaysInOrder A.Shared P.Pool self.now result worker.old worker.new }
    {
        let mut walk = self.instance.walk(&of.sol);
        let mut point = *of;
        while let Some(value) = self.instance.next_value(&mut walk) {
            self.instance.solution(&walk, &mut point.sol);
            point.value = value;
            self.submit_neighbour(rt, worker, &point)?;
        }
        Ok(())
    }

    // Asks whether the point of a task is a member still, and submits what is due then.
    fn submit_due<R: Wait>(
        &self,
        rt: &R,
        worker: &mut Worker<A, P>,
        task: &Task,
    ) -> Result<(), Cause>
        requires seated { IsSeated A.Shared P.Pool self.now worker.old }
        requires objectives { A.objectives self.now.archive.now ≡ objectives self.now.instance.now }
        requires feasible { feasible self.now.instance.now task.now.point.sol ≡ true }
        requires parts { length task.now.point.value ≡ objectives self.now.instance.now }
        requires fresh { IsFresh worker.old.desk_seat }
        ensures explores { UnlessMemory result (ExploresTask self.now.instance.now (task_of task.now) 0 (hands_of A.Shared P.Pool worker.old) (hands_of A.Shared P.Pool worker.new)) }
        ensures keeps { Keeps A.Shared A.Law.Rule P.Pool self.now [] result worker.old worker.new }
        ensures fresh { result ≢ Err Spent → IsFresh worker.new.desk_seat }
        ensures in_order { StaysInOrder A.Shared P.Pool self.now result worker.old worker.new }
    {
        let (is_member, stamp) = self.archive.member(rt, &mut worker.pass, task.point.value);
        if !is_member && task.stamp <= stamp {
            return Ok(());
        }
        self.submit_neighbours(rt, worker, &task.point)?;
        worker.explored = worker.explored.wrapping_add(1);
        Ok(())
    }

    /// Explores a task: where its point is a member still, or the answer is older than the task, its neighbours are submitted. The
    /// task is done at the end, unless the exploration was cut.
    pub(crate) fn explore<R: Wait>(
        &self,
        rt: &R,
        worker: &mut Worker<A, P>,
        task: &Task,
    ) -> Result<(), Cause>
        requires seated { IsSeated A.Shared P.Pool self.now worker.old }
        requires objectives { A.objectives self.now.archive.now ≡ objectives self.now.instance.now }
        requires feasible { feasible self.now.instance.now task.now.point.sol ≡ true }
        requires parts { length task.now.point.value ≡ objectives self.now.instance.now }
        requires fresh { IsFresh worker.old.desk_seat }
        ensures explores { UnlessMemory result (λ spent full. ExploresTask self.now.instance.now (task_of task.now) (one_if (not (spent || full))) (hands_of A.Shared P.Pool worker.old) (hands_of A.Shared P.Pool worker.new) spent full) }
        ensures keeps { Keeps A.Shared A.Law.Rule P.Pool self.now [] result worker.old worker.new }
        ensures fresh { result ≢ Err Spent → IsFresh worker.new.desk_seat }
        ensures in_order { StaysInOrder A.Shared P.Pool self.now result worker.old worker.new }
    {
        self.submit_due(rt, worker, task)?;
        self.desk.done(&mut worker.desk_seat);
        Ok(())
    }
}
