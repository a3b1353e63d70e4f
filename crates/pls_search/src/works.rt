//! The loop of a worker.
ghost use Rattle.std.specs.Prelude.{◌≡◌, ◌≢◌, OnOk, Err};
ghost use Rattle.pls_pool.specs.DeskSeats.{IsDeskSeatOf, tally_of};
ghost use Rattle.pls_pool.specs.declared.cause.Cause.TheVariants.{Spent};
ghost use Rattle.pls_problem.specs.Instance.{objectives};
ghost use Rattle.pls_search.specs.Workers.{task_of, HasLeft};
ghost use Rattle.pls_search.specs.Neighbours.{is_of};
ghost use Rattle.pls_search.specs.Steps.{UnlessMemory, causes_of, TakesUp, Halts};
ghost use Rattle.pls_search.specs.InLine.{ExploresInLine};
ghost use Rattle.pls_search.specs.Onwards.{ExploresOn};
ghost use Rattle.pls_search.specs.Seats.{IsFresh, hands_of, IsSeated, StaysInOrder, Keeps};

use crate::gate::Gate;
use crate::task::Task;
use crate::worker::{Search, Worker};
use pls_archive::Shared;
use pls_pool::{Cause, Pool};
use std::sync::Wait;
use std::thread::yield_now;

impl<'a, A: Shared, P: Pool<Task>, G: Gate> Search<'a, A, P, G> {
    // The task is one of this instance: its solution is feasible, and its value has a part for each objective.
    fn is_of(&self, task: &Task) -> bool
        ensures { result ≡ is_of self.now.instance.now (task_of task.now).point }
    {
        self.instance.is_feasible(&task.point.sol)
            && task.point.value.len() == self.instance.objectives() as usize
    }

    /// Halts the run where a step ended so that it has to be.
    pub(crate) fn halt_by(
        &self,
        worker: &mut Worker<A, P>,
        end: Result<(), Cause>,
    ) -> Result<(), Cause>
        requires desk { IsDeskSeatOf self.now.desk.now worker.old.desk_seat }
        ensures desk { IsDeskSeatOf self.now.desk.now worker.new.desk_seat }
        ensures same { result ≡ end }
        ensures others { (worker.new.pass ≡ worker.old.pass) × (worker.new.pool_seat ≡ worker.old.pool_seat) }
        ensures counts { (worker.new.explored ≡ worker.old.explored) × (worker.new.evaluated ≡ worker.old.evaluated) }
        ensures halts { Halts end (tally_of worker.old.desk_seat) (tally_of worker.new.desk_seat) }
    {
        match end {
            Ok(()) => Ok(()),
            Err(cause) => {
                self.desk.halt(&mut worker.desk_seat, cause);
                Err(cause)
            }
        }
    }

    // Explores a task that was taken, where it is one of this instance, and halts the run where that was cut.
    fn take_up<R: Wait>(&self, rt: &R, worker: &mut Worker<A, P>, task: &Task) -> Result<(), Cause>
        requires seated { IsSeated A.Shared P.Pool self.now worker.old }
        requires objectives { A.objectives self.now.archive.now ≡ objectives self.now.instance.now }
        requires fresh { IsFresh worker.old.desk_seat }
        ensures takes_up { UnlessMemory result (TakesUp self.now.instance.now (task_of task.now) (hands_of A.Shared P.Pool worker.old) (hands_of A.Shared P.Pool worker.new)) }
        ensures keeps { Keeps A.Shared A.Law.Rule P.Pool self.now (causes_of result) result worker.old worker.new }
        ensures fresh { result ≢ Err Spent → IsFresh worker.new.desk_seat }
        ensures in_order { StaysInOrder A.Shared P.Pool self.now result worker.old worker.new }
    {
        if !self.is_of(task) {
            return Ok(());
        }
        self.gate.at(worker.number, worker.begun);
        worker.begun = worker.begun.wrapping_add(1);
        let end = self.explore(rt, worker, task);
        self.halt_by(worker, end)
    }

    /// Explores tasks of the pool until the run is halted, or no task is open. An error tells why this worker halted it.
    pub(crate) fn work<R: Wait>(&self, rt: &R, worker: &mut Worker<A, P>) -> Result<(), Cause>
        requires seated { IsSeated A.Shared P.Pool self.now worker.old }
        requires objectives { A.objectives self.now.archive.now ≡ objectives self.now.instance.now }
        requires fresh { IsFresh worker.old.desk_seat }
        ensures explores { UnlessMemory result (λ spent full. ExploresOn self.now.instance.now spent full (hands_of A.Shared P.Pool worker.old) (hands_of A.Shared P.Pool worker.new)) }
        ensures keeps { Keeps A.Shared A.Law.Rule P.Pool self.now (causes_of result) result worker.old worker.new }
        ensures left { OnOk result (HasLeft (tally_of worker.new.desk_seat)) }
        ensures in_line { P.seats self.now.pool.now ≡ 1 → UnlessMemory result (ExploresInLine self.now.instance.now (hands_of A.Shared P.Pool worker.old) (hands_of A.Shared P.Pool worker.new)) }
    {
        for _ in rt.forever() {
            if self.desk.halted(&mut worker.desk_seat) {
                return Ok(());
            }
            match self.pool.take(rt, &mut worker.pool_seat) {
                Some(task) => self.take_up(rt, worker, &task)?,
                None => {
                    if self.desk.quiet(&mut worker.desk_seat) {
                        return Ok(());
                    }
                    yield_now();
                }
            }
        }
        unreachable!()
    }
}
