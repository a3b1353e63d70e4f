//! The search.
ghost use Rattle.std.specs.Prelude.{◌≡◌, ◌↔◌, ◌+◌, ◌≤◌, length, vec_len, ◌<◌, All, true, map, IfOk, IfErr};
ghost use Rattle.pls_archive.specs.View.{IsConsistent, new_view};
ghost use Rattle.pls_pool.specs.Accounts.{IsNew};
ghost use Rattle.pls_pool.specs.DeskSeats.{IsNewDeskSeat};
ghost use Rattle.pls_problem.specs.Instance.{objectives, feasible};
ghost use Rattle.pls_search.specs.Crews.{AreSeated};
ghost use Rattle.pls_search.specs.Neighbours.{point_of};
ghost use Rattle.pls_search.specs.Outcomes.{Finds};

use crate::crew::Crew;
use crate::end::End;
use crate::gate::Gate;
use crate::outcome::{NoMemory, Outcome};
use crate::task::Task;
use crate::worker::Search;
use pls_archive::Shared;
use pls_pool::{Cause, Desk, DeskSeat, Pool};
use pls_problem::Instance;
use pls_vectors::Sol;
use std::alloc::Global;
use std::sync::Wait;
use std::thread::Threads;

/// Pareto local search from these starts by as many workers as there are passes, over an archive, a pool and a desk that are new.
/// Worker k has pass k and the seats k.
pub fn search<'x, A: Shared, P: Pool<Task> + Sync, G: Gate, R: Threads + Wait + Sync>(
    rt: &R,
    alloc: Global,
    instance: &'x Instance,
    starts: &[Sol],
    archive: &'x A,
    passes: Vec<A::Pass>,
    pool: &'x P,
    seats: Vec<P::Seat>,
    desk: &'x Desk,
    desk_seats: Vec<DeskSeat>,
    gate: &'x G,
) -> Result<Outcome<A::Pass>, NoMemory<A::Pass>>
where
    P::Seat: Send + Drop,
    requires objectives { A.objectives archive.now ≡ objectives instance.now }
    requires starts { All (λ s. feasible instance.now s ≡ true) starts.now × (1 ≤ length starts.now) × (length starts.now ≤ 64) }
    requires count { (1 ≤ vec_len passes) × (vec_len passes ≤ 16) × (A.passes archive.now ≡ vec_len passes) }
    requires even { (vec_len seats ≡ vec_len passes) × (P.seats pool.now ≡ vec_len passes) × (vec_len desk_seats ≡ vec_len passes) × (desk.now.seats ≡ vec_len passes) }
    requires new_passes { AreSeated (λ k p. A.belongs archive.now p × A.at_rest p × (A.view p ≡ new_view k) × ¬ A.shows_full p) passes.items }
    requires new_seats { AreSeated (λ k s. P.belongs pool.now s × IsNew k (P.account s)) seats.items }
    requires new_desk_seats { AreSeated (λ k s. IsNewDeskSeat desk.now s) desk_seats.items }
    ensures found { IfOk result (λ o. Finds (A.Law.reply (A.number archive.now)) instance.now (map (point_of instance.now) starts.now) desk.now.moves (A.passes archive.now) (A.view o.pass) o.end o.front o.explored o.evaluated o.accepted) }
    ensures pass { IfOk result (λ o. A.belongs archive.now o.pass × A.at_rest o.pass) }
    ensures full { IfOk result (λ o. A.shows_full o.pass ↔ (o.end ≡ End.Full)) }
    ensures room { IfOk result (λ o. o.end ≡ End.Full → A.safe archive.now < length starts.now + desk.now.moves) }
    ensures no_memory { IfErr result (λ n. A.belongs archive.now n.pass × A.at_rest n.pass
        × IsConsistent (A.Law.reply (A.number archive.now)) (A.passes archive.now) (A.view n.pass)) }
{
    let run = Search {
        instance,
        archive,
        pool,
        desk,
        gate,
    };
    let run = &run;
    let mut crew = Crew {
        passes,
        pool_seats: seats,
        desk_seats,
    };
    let mut first = run.first_of(&mut crew);
    match run.submit_starts(rt, &mut first, starts) {
        Ok(()) => {
            let left = run.spread(rt, first, crew);
            run.finish(rt, alloc, left)
        }
        Err(cause) => run.give_up(rt, alloc, first, crew, cause),
    }
}
