//! The search with the settings: its archive, its pool and its desk.
ghost use Rattle.std.specs.Prelude.{◌≡◌, IfOk};
ghost use Rattle.pls_settings.specs.Limits.{HasLimits};
ghost use Rattle.pls_top.specs.Runs.{SearchRun, workers_of, HasRun, Shows, KeepsConsistent};

use crate::journal::Journal;
use crate::report::Counts;
use nd_shared::Tree;
use pls_archive::PointList;
use pls_pool::{Desk, Stealing};
use pls_problem::{Instance, starts};
use pls_search::{End, Gate, NoMemory, Outcome as Found, search};
use pls_settings::Settings;
use std::alloc::{AllocError, Global};
use std::sync::Wait;
use std::thread::Threads;

/// So many tasks of a worker's own go to its deque, and the later ones to its spare list.
const ROOM: usize = 4096;

/// What a search found.
#[derive(Debug, Drop)]
pub struct Outcome {
    /// The members of the archive in ascending lexicographic order of values.
    pub front: PointList,
    pub counts: Counts,
    pub end: End,
}

/// Searches from the starts of the seed, with the given moves and so many workers. The journal keeps the pass that is left.
pub(crate) fn search_with<R: Threads + Wait + Sync, G: Gate>(
    rt: &R,
    alloc: Global,
    settings: &Settings,
    workers: u32,
    instance: &Instance,
    gate: &G,
    journal: &mut Journal,
) -> Result<Outcome, AllocError>
    requires settings { HasLimits settings.now }
    requires workers { workers ≡ workers_of settings.now }
    ensures found { IfOk result (λ o. (r : SearchRun) × HasRun settings.now (Some instance.now) journal.new r × Shows instance.now r o) }
    ensures keeps { KeepsConsistent workers journal.old journal.new }
{
    let starts = starts(alloc, instance, settings.seed, settings.starts)?;
    let (archive, passes) = Tree::start(alloc, instance.objectives(), settings.rows, workers)?;
    let (pool, seats) = Stealing::start(alloc, workers, ROOM)?;
    let (desk, desk_seats) = Desk::start(alloc, settings.moves, workers)?;
    match search(
        rt, alloc, instance, &starts, &archive, passes, &pool, seats, &desk, desk_seats, gate,
    ) {
        Ok(
            Found {
                end,
                front,
                explored,
                evaluated,
                accepted,
                pass,
            },
        ) => {
            journal.keep(pass);
            let counts = Counts {
                explored,
                evaluated,
                accepted,
            };
            Ok(Outcome { front, counts, end })
        }
        Err(NoMemory { pass }) => {
            journal.keep(pass);
            Err(AllocError)
        }
    }
}
