//! The start of a pool of deques: the deques, and the seats.
ghost use Rattle.std.specs.Prelude.{◌≡◌, ℕ, ◌+◌, ◌-◌, ◌<◌, ◌≤◌, List, [], ◌∷◌, ◌++◌, length, vec_len, Some, IfOk, OnOk};
ghost use Rattle.std.specs.List.{range_with_len};
ghost use Rattle.crossbeam_deque.specs.Handles.{view, IsPassOf, worker_deque, worker_view, worker_index, stealer_deque, stealer_flavor, SameWorker};
ghost use Rattle.pls_pool.specs.Hands.{started, first};
ghost use Rattle.pls_pool.specs.Reaches.{Thief, IsReach};
ghost use Rattle.pls_pool.specs.Deals.{in_turn, Gains, IsGuestReach, IsDealtTo, IsOpened, IsBegun};
ghost use Rattle.pls_pool.specs.StealSeats.{IsNewStealSeat};
ghost use mathlib.Core.Option.{some};
ghost use lib.ListN.{get_elem?};

use crate::stealing::{Guest, Owner, Reach, StealSeat, Stealing, Thief};
use crate::task_plays::{Begin, Notes, Said};
use std::alloc::{AllocError, Global};
use std::collections::LinkedList;
use std::marker::Brand;

// The worker holds the numbers of all seats, its own as the last, until it gives the others away.
fn plan<T: Drop, W: Said<T>>(worker: &mut Owner<T>, seats: usize, number: usize)
    requires first { worker_view worker.old ≡ first }
    requires number { number < seats }
    requires said { W.now ≡ Some (started seats (in_turn seats number)) }
    ensures same { SameWorker worker.old worker.new × (worker_index worker.new ≡ worker_index worker.old) }
    ensures planned { worker_view worker.new ≡ started seats (in_turn seats number) }
{
    drop(worker.another::<Notes<W>>());
}

// A seat that has done nothing, before it reaches any deque.
fn bare<T: Drop>(alloc: Global, seats: usize, number: usize) -> Result<StealSeat<T>, AllocError>
    ensures { IfOk result (λ s. IsBegun 0 0 [] number s) }
{
    Ok(StealSeat {
        number,
        reaches: Vec::with_capacity(alloc, seats)?,
        spare: LinkedList::new(alloc),
    })
}

// The seats before they reach any deque, in order of number.
fn bare_seats<T: Drop>(alloc: Global, seats: usize) -> Result<Vec<StealSeat<T>>, AllocError>
    ensures count { IfOk result (λ all. vec_len all ≡ seats) }
    ensures each { IfOk result (λ all. (i : ℕ) (s : _) → get_elem? all.items i ≡ some s → IsBegun 0 0 [] i s) }
{
    let mut all = Vec::with_capacity(alloc, seats)?;
    for number in 0..seats {
        let seat = bare(alloc, seats, number)?;
        all.push(seat)?;
    }
    Ok(all)
}

// The seat reaches one deque more.
fn gain<T: Drop>(seat: &mut StealSeat<T>, reach: Reach<T>) -> Result<(), AllocError>
    ensures { OnOk result (Gains seat.old seat.new reach) }
{
    seat.reaches.push(reach)?;
    Ok(())
}

// A pass of another seat's deque.
fn guest<T: Drop>(alloc: Global, pass: Guest<T>) -> Result<Reach<T>, AllocError>
    ensures { IfOk result (λ r. (i seats : ℕ) (w : _) → IsPassOf (worker_deque w) pass → view pass ≡ started seats (i ∷ []) → IsGuestReach seats w i r) }
{
    let mut passes = LinkedList::new(alloc);
    passes.push_back(pass)?;
    Ok(Reach::Guests(passes))
}

// The seats with these numbers get a pass of this worker's deque each.
fn deal<T: Drop>(
    alloc: Global,
    worker: &mut Owner<T>,
    all: &mut Vec<StealSeat<T>>,
    from: usize,
    to: usize,
) -> Result<(), AllocError>
    requires numbers { (seats : ℕ) × (kept : List ℕ) × (0 < length kept) × (worker_view worker.old ≡ started seats (range_with_len from (to - from) ++ kept)) }
    requires order { (from ≤ to) × (to ≤ vec_len all.old) }
    ensures same { SameWorker worker.old worker.new × (worker_index worker.new ≡ worker_index worker.old) }
    ensures kept { (seats : ℕ) (kept : List ℕ) → worker_view worker.old ≡ started seats (range_with_len from (to - from) ++ kept) → OnOk result ((worker_view worker.new ≡ started seats kept) × IsDealtTo seats worker.old from to all.old.items all.new.items) }
{
    for number in from..to {
        let reach = guest(alloc, worker.another::<Begin>())?;
        gain(&mut all[number], reach)?;
    }
    Ok(())
}

// The deque with this number, which each seat reaches.
fn open<T: Drop>(
    alloc: Global,
    number: usize,
    room: usize,
    all: &mut Vec<StealSeat<T>>,
) -> Result<Thief<T>, AllocError>
    requires number { number < vec_len all.old }
    ensures { IfOk result (λ stealer. IsOpened (vec_len all.old) room number stealer all.old.items all.new.items) }
{
    let seats = all.len();
    let mut worker = Owner::fifo_as(alloc, room)?;
    plan::<T, Brand>(&mut worker, seats, number);
    deal(alloc, &mut worker, all, 0, number)?;
    deal(alloc, &mut worker, all, number + 1, seats)?;
    let stealer = worker.stealer()?;
    gain(&mut all[number], Reach::Own(worker))?;
    Ok(stealer)
}

impl<T: Drop> Stealing<T> {
    /// A pool without tasks, with so many seats, in order of number. An error means that memory ran out.
    ///
    /// The first `room` puts of a seat into which none was joined go to its deque and succeed.
    pub fn start(
        alloc: Global,
        seats: u32,
        room: usize,
    ) -> Result<(Stealing<T>, Vec<StealSeat<T>>), AllocError>
        requires seats { (1 ≤ seats) × (seats ≤ 16) }
        requires room { (1 ≤ room) × (room ≤ 65536) }
        ensures pool { IfOk result (λ t. (vec_len t.0.stealers ≡ seats) × (t.0.room ≡ room)) }
        ensures count { IfOk result (λ t. vec_len t.1 ≡ seats) }
        ensures seats { IfOk result (λ t. (i : ℕ) (s : _) → get_elem? t.1.items i ≡ some s → IsNewStealSeat t.0 i s) }
    {
        let mut all = bare_seats(alloc, seats as usize)?;
        let mut stealers = Vec::with_capacity(alloc, seats as usize)?;
        for number in 0..seats as usize {
            let stealer = open(alloc, number, room, &mut all)?;
            stealers.push(stealer)?;
        }
        Ok((Stealing { stealers, room }, all))
    }
}
