//! The seat of one thread.
ghost use Rattle.std.specs.Prelude.{◌≡◌, [], vec_capacity};
ghost use Rattle.std.specs.VecDeque.{deque_capacity};
ghost use Rattle.era_rows.specs.Ring.{pairs_in};
ghost use Rattle.era_rows.specs.Held.{IsTied, HasRoom};
ghost use Rattle.era_rows.specs.Memory.{Recalls};

use crate::freed::Freed;
use crate::law::Law;
use crate::memory::{MEMORY_PLACES, MEMORY_WORDS};
use crate::views::Knows;
use atomic_table::Seat;
use std::collections::VecDeque;

/// One thread's seat at the rows, with the rows that it took, those that it retired, and a work list for its caller.
#[derive(Drop)]
pub struct Pass<L: Law> {
    pub(crate) seat: Seat<(), Knows<L::Entry>>,
    pub(crate) number: u32,
    // Rows that it freed last, which it tries first.
    pub(crate) freed: Freed,
    // Where the search for a free row goes on after these.
    pub(crate) next: u32,
    pub(crate) pinned: Option<(u64, u32)>,
    pub(crate) fresh: Vec<u32>,
    // For each row: whether it is fresh.
    pub(crate) loose: Vec<bool>,
    // Room for the fresh rows of a tree.
    pub(crate) reached: Vec<u32>,
    pub(crate) marked: Vec<u32>,
    // Each retired row in one word with the version at which it was retired, in the order of these versions.
    pub(crate) retired: VecDeque<u64>,
    pub(crate) work: Vec<u64>,
    // The words that it remembers for its caller, at each place.
    pub(crate) memory: [Option<[u64; MEMORY_WORDS]>; MEMORY_PLACES],
    ghost tied: { IsTied seat.me.0.view number next pinned fresh.items loose.items marked.items (pairs_in retired.items) },
    ghost recalls: { Recalls L.says seat.me.0.view.shape seat.me.0.seen memory },
    ghost bare: { seat.me.1 ≡ [] },
    ghost roomy: { HasRoom seat.me.0.view.rows (vec_capacity fresh) (vec_capacity reached) (vec_capacity marked) (deque_capacity retired) (vec_capacity work) },
}
