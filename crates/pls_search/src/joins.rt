//! One worker takes over what another did.
ghost use Rattle.std.specs.Prelude.{◌↔◌, ◌⊎◌, ◌+◌, ◌≤◌, length};
ghost use Rattle.pls_pool.specs.Accounts.{Apart};
ghost use Rattle.pls_search.specs.Teams.{JoinsHands};
ghost use Rattle.pls_search.specs.Seats.{hands_of, IsSeated, HasLists};

use crate::gate::Gate;
use crate::task::Task;
use crate::worker::{Search, Worker};
use pls_archive::Shared;
use pls_pool::Pool;

impl<'a, A: Shared, P: Pool<Task>, G: Gate> Search<'a, A, P, G> {
    /// The worker takes over the pass and the seats of another.
    pub(crate) fn join(&self, worker: &mut Worker<A, P>, other: Worker<A, P>)
        requires seated { IsSeated A.Shared P.Pool self.now worker.old × IsSeated A.Shared P.Pool self.now other }
        requires apart { Apart (P.account worker.old.pool_seat).numbers (P.account other.pool_seat).numbers }
        requires few { length (P.account worker.old.pool_seat).numbers + length (P.account other.pool_seat).numbers ≤ P.seats self.now.pool.now }
        ensures seated { IsSeated A.Shared P.Pool self.now worker.new }
        ensures joins { JoinsHands (hands_of A.Shared P.Pool worker.old) (hands_of A.Shared P.Pool other) (hands_of A.Shared P.Pool worker.new) }
        ensures lists { HasLists A.Shared A.Law.Rule P.Pool self.now worker.new.pass }
        ensures full { A.shows_full worker.new.pass ↔ (A.shows_full worker.old.pass ⊎ A.shows_full other.pass) }
    {
        let Worker {
            number: _,
            begun: _,
            explored,
            evaluated,
            pass,
            pool_seat,
            desk_seat,
        } = other;
        worker.explored = worker.explored.wrapping_add(explored);
        worker.evaluated = worker.evaluated.wrapping_add(evaluated);
        self.archive.join(&mut worker.pass, pass);
        self.pool.join(&mut worker.pool_seat, pool_seat);
        self.desk.join(&mut worker.desk_seat, desk_seat);
    }
}
