//! The workers that have not begun.
ghost use Rattle.std.specs.Prelude.{◌≡◌, ◌+◌, ◌≤◌, OnSome, IfSome, MatchOption, vec_len};
ghost use Rattle.pls_search.specs.Crews.{IsNewCrew};
ghost use Rattle.pls_search.specs.Seats.{IsNewAt};

use crate::gate::Gate;
use crate::task::Task;
use crate::worker::{Search, Worker};
use pls_archive::Shared;
use pls_pool::{DeskSeat, Pool};

/// The passes and the seats of workers that have not begun, in order of number.
#[derive(Drop)]
pub(crate) struct Crew<A: Shared, P: Pool<Task>> {
    pub passes: Vec<A::Pass>,
    pub pool_seats: Vec<P::Seat>,
    pub desk_seats: Vec<DeskSeat>,
}

impl<'a, A: Shared, P: Pool<Task>, G: Gate> Search<'a, A, P, G> {
    /// The first worker of all.
    pub(crate) fn first_of(&self, crew: &mut Crew<A, P>) -> Worker<A, P>
        requires some { 1 ≤ vec_len crew.old.passes }
        requires crew { IsNewCrew A.Shared P.Pool self.now 0 crew.old }
        ensures count { vec_len crew.new.passes + 1 ≡ vec_len crew.old.passes }
        ensures crew { IsNewCrew A.Shared P.Pool self.now 1 crew.new }
        ensures worker { IsNewAt A.Shared P.Pool self.now 0 result }
    {
        let pass = crew.passes.remove(0);
        let pool_seat = crew.pool_seats.remove(0);
        let desk_seat = crew.desk_seats.remove(0);
        Worker::new(0, pass, pool_seat, desk_seat)
    }

    /// The last worker of a crew.
    pub(crate) fn next_of(&self, crew: &mut Crew<A, P>) -> Option<Worker<A, P>>
    where
        P::Seat: Drop,
        requires crew { IsNewCrew A.Shared P.Pool self.now 1 crew.old }
        ensures count { MatchOption result (vec_len crew.old.passes ≡ 0) (λ _. vec_len crew.new.passes + 1 ≡ vec_len crew.old.passes) }
        ensures crew { OnSome result (IsNewCrew A.Shared P.Pool self.now 1 crew.new) }
        ensures worker { IfSome result (IsNewAt A.Shared P.Pool self.now (vec_len crew.old.passes)) }
    {
        let number = crew.passes.len();
        let pass = crew.passes.pop()?;
        let pool_seat = crew.pool_seats.pop()?;
        let desk_seat = crew.desk_seats.pop()?;
        Some(Worker::new(number as u32, pass, pool_seat, desk_seat))
    }
}
