//! What a worker has of its own, and what all workers of a search share.
ghost use Rattle.std.specs.Prelude.{◌≡◌};

use crate::gate::Gate;
use crate::task::Task;
use pls_archive::Shared;
use pls_pool::{Desk, DeskSeat, Pool};
use pls_problem::Instance;

/// A worker: its pass at the archive, and its seats at the pool and at the desk.
#[derive(Drop)]
pub(crate) struct Worker<A: Shared, P: Pool<Task>> {
    pub number: u32,
    /// How many explorations it began, modulo 2^64.
    pub begun: u64,
    /// How many of them were whole, and not skipped, and how many neighbours it submitted, modulo 2^64.
    pub explored: u64,
    pub evaluated: u64,
    pub pass: A::Pass,
    pub pool_seat: P::Seat,
    pub desk_seat: DeskSeat,
}

impl<A: Shared, P: Pool<Task>> Worker<A, P> {
    /// A worker that has done nothing.
    pub(crate) fn new(
        number: u32,
        pass: A::Pass,
        pool_seat: P::Seat,
        desk_seat: DeskSeat,
    ) -> Worker<A, P>
        ensures pass { result.pass ≡ pass }
        ensures seats { (result.pool_seat ≡ pool_seat) × (result.desk_seat ≡ desk_seat) }
        ensures counts { (result.explored ≡ 0) × (result.evaluated ≡ 0) }
    {
        Worker {
            number,
            begun: 0,
            explored: 0,
            evaluated: 0,
            pass,
            pool_seat,
            desk_seat,
        }
    }
}

/// What all workers of a search share.
#[derive(Drop)]
pub(crate) struct Search<'a, A: Shared, P: Pool<Task>, G: Gate> {
    pub instance: &'a Instance,
    pub archive: &'a A,
    pub pool: &'a P,
    pub desk: &'a Desk,
    pub gate: &'a G,
}
