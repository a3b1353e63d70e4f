//! Submitting a point.
ghost use Rattle.std.specs.Prelude.{◌≡◌, [], length, MatchResult};
ghost use Rattle.pls_pool.specs.Accounts.{Puts};
ghost use Rattle.pls_pool.specs.DeskSeats.{IsDeskSeatOf, tally_of};
ghost use Rattle.pls_pool.specs.declared.cause.Cause.TheVariants.{Memory};
ghost use Rattle.pls_search.specs.Steps.{UnlessMemory, Submits, cause_for};
ghost use Rattle.pls_pool.specs.Tallies.{opening};
ghost use Rattle.pls_search.specs.Seats.{hands_of, IsSeated, StaysInOrder, Keeps};

use crate::gate::Gate;
use crate::task::Task;
use crate::worker::{Search, Worker};
use pls_archive::{Point, Refusal, Shared, Taken};
use pls_pool::{Cause, Pool};
use std::sync::Wait;

// Why a search is halted whose archive refused a point.
fn cause_for(refusal: Refusal) -> Cause
    ensures { result ≡ cause_for refusal }
{
    match refusal {
        Refusal::Full => Cause::Full,
        Refusal::Spent => Cause::Memory,
        Refusal::Memory => Cause::Memory,
    }
}

impl<'a, A: Shared, P: Pool<Task>, G: Gate> Search<'a, A, P, G> {
    // A task is open, and waits in the pool.
    fn offer<R: Wait>(&self, rt: &R, worker: &mut Worker<A, P>, task: Task) -> Result<(), Cause>
        requires seats { P.belongs self.now.pool.now worker.old.pool_seat × IsDeskSeatOf self.now.desk.now worker.old.desk_seat }
        ensures seats { P.belongs self.now.pool.now worker.new.pool_seat × IsDeskSeatOf self.now.desk.now worker.new.desk_seat }
        ensures others { (worker.new.pass ≡ worker.old.pass) × (worker.new.explored ≡ worker.old.explored) × (worker.new.evaluated ≡ worker.old.evaluated) }
        ensures tally { tally_of worker.new.desk_seat ≡ opening (tally_of worker.old.desk_seat) }
        ensures put { MatchResult result (λ _. Puts (P.seats self.now.pool.now) task (P.account worker.old.pool_seat) (P.account worker.new.pool_seat))
            (λ cause. (cause ≡ Memory) × (P.account worker.new.pool_seat ≡ P.account worker.old.pool_seat)) }
    {
        self.desk.opened(&mut worker.desk_seat);
        match self.pool.put(rt, &mut worker.pool_seat, task) {
            Ok(()) => Ok(()),
            Err(_) => Err(Cause::Memory),
        }
    }

    /// Submits a point; a task that it makes is opened, and put into the pool.
    pub(crate) fn submit<R: Wait>(
        &self,
        rt: &R,
        worker: &mut Worker<A, P>,
        point: &Point,
    ) -> Result<(), Cause>
        requires seated { IsSeated A.Shared P.Pool self.now worker.old }
        requires parts { length point.now.value ≡ A.objectives self.now.archive.now }
        ensures submits { UnlessMemory result (Submits point.now (hands_of A.Shared P.Pool worker.old) (hands_of A.Shared P.Pool worker.new)) }
        ensures keeps { Keeps A.Shared A.Law.Rule P.Pool self.now [] result worker.old worker.new }
        ensures drawn { ((tally_of worker.new.desk_seat).draws ≡ (tally_of worker.old.desk_seat).draws) × ((tally_of worker.new.desk_seat).goes ≡ (tally_of worker.old.desk_seat).goes) }
        ensures in_order { StaysInOrder A.Shared P.Pool self.now result worker.old worker.new }
    {
        match self.archive.update(rt, &mut worker.pass, *point) {
            Ok((taken, stamp)) => match taken {
                Taken::Added { .. } => self.offer(
                    rt,
                    worker,
                    Task {
                        point: *point,
                        stamp,
                    },
                ),
                Taken::Refused => Ok(()),
            },
            Err(refusal) => Err(cause_for(refusal)),
        }
    }
}
