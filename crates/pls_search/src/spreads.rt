//! Workers explore in a scope of threads.
ghost use Rattle.pls_search.specs.Crews.{MayExplore, HaveLeft};

use crate::crew::Crew;
use crate::departs::Left;
use crate::gate::Gate;
use crate::task::Task;
use crate::worker::{Search, Worker};
use pls_archive::Shared;
use pls_pool::Pool;
use std::sync::Wait;
use std::thread;
use std::thread::Threads;

impl<'a, A: Shared, P: Pool<Task>, G: Gate> Search<'a, A, P, G> {
    /// The workers explore together in a scope of threads.
    pub(crate) fn spread<'x, R: Threads + Wait + Sync>(
        &'x self,
        rt: &'x R,
        first: Worker<A, P>,
        crew: Crew<A, P>,
    ) -> Left<A, P>
    where
        P: Sync,
        P::Seat: Send + Drop,
        requires ready { MayExplore A.Shared A.Law.Rule P.Pool self.now first crew }
        ensures { HaveLeft A.Shared A.Law.Rule P.Pool self.now first crew result }
    {
        thread::scope(
            thread::scope_env(),
            rt,
            move |scope| -> Left<A, P>
                requires { MayExplore A.Shared A.Law.Rule P.Pool self.now first crew }
            { self.together(scope, rt, first, crew) },
        )
    }
}
