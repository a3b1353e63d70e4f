//! Tasks in order, and by four threads.

ghost use Rattle.std.specs.Prelude.{◌≡◌, ℕ, ◌+◌, ◌<◌, ◌≤◌, [], ◌∷◌, vec_len, IfOk};
ghost use Rattle.pls_pool.specs.Accounts.{IsNew};
ghost use Rattle.pls_pool.specs.QueueSeats.{IsQueueSeatOf, account_of as queue_account_of};
ghost use Rattle.pls_pool.specs.StealSeats.{IsStealSeatOf, account_of as steal_account_of};
ghost use mathlib.Core.Option.{some};
ghost use lib.ListN.{get_elem?};

use pls_pool::{OneQueue, Pool, QueueSeat, StealSeat, Stealing};
use std::alloc::{AllocError, Global};
use std::sync::Wait;
use std::test::*;
use std::thread;
use std::thread::Threads;

// Puts these numbers in order: whether all were put.
fn put_range<P: Pool<u32>, R: Wait>(
    rt: &R,
    pool: &P,
    seat: &mut P::Seat,
    from: u32,
    to: u32,
) -> bool
    requires { P.belongs pool.now seat.old }
    ensures { P.belongs pool.now seat.new }
{
    for number in from..to {
        if pool.put(rt, seat, number).is_err() {
            return false;
        }
    }
    true
}

// Whether the next tasks are these numbers in order.
fn takes_range<P: Pool<u32>, R: Wait>(
    rt: &R,
    pool: &P,
    seat: &mut P::Seat,
    from: u32,
    to: u32,
) -> bool
    requires { P.belongs pool.now seat.old }
    ensures { P.belongs pool.now seat.new }
{
    for number in from..to {
        if pool.take(rt, seat) != Some(number) {
            return false;
        }
    }
    true
}

// Whether two seats take in order what one puts.
fn pass_in_order<P: Pool<u32>, R: Wait>(rt: &R, pool: &P, a: &mut P::Seat, b: &mut P::Seat) -> bool
    requires { P.belongs pool.now a.old × P.belongs pool.now b.old }
{
    put_range(rt, pool, a, 1, 4)
        && takes_range(rt, pool, b, 1, 2)
        && takes_range(rt, pool, a, 2, 4)
        && pool.take(rt, a).is_none()
        && pool.take(rt, b).is_none()
        && put_range(rt, pool, a, 1, 101)
        && takes_range(rt, pool, b, 1, 101)
        && pool.take(rt, a).is_none()
        && pool.take(rt, b).is_none()
}

// A pool of one queue, and its seats.
fn start_queue(
    alloc: Global,
    count: u32,
) -> Result<(OneQueue<u32>, Vec<QueueSeat<u32>>), AllocError>
    requires { (1 ≤ count) × (count ≤ 16) }
    ensures count { IfOk result (λ t. (t.0.seats ≡ count) × (vec_len t.1 ≡ count)) }
    ensures seats { IfOk result (λ t. (i : ℕ) (s : _) → get_elem? t.1.items i ≡ some s → IsQueueSeatOf t.0 s × IsNew i (queue_account_of s)) }
{
    let (pool, seats) = OneQueue::start(alloc, count)?;
    Ok((pool, seats))
}

// A pool of deques with room for so many tasks, and its seats.
fn start_deques(
    alloc: Global,
    count: u32,
    room: usize,
) -> Result<(Stealing<u32>, Vec<StealSeat<u32>>), AllocError>
    requires count { (1 ≤ count) × (count ≤ 16) }
    requires room { (1 ≤ room) × (room ≤ 65536) }
    ensures count { IfOk result (λ t. (vec_len t.0.stealers ≡ count) × (vec_len t.1 ≡ count)) }
    ensures seats { IfOk result (λ t. (i : ℕ) (s : _) → get_elem? t.1.items i ≡ some s → IsStealSeatOf t.0 s × IsNew i (steal_account_of s)) }
{
    Stealing::start(alloc, count, room)
}

// The two seats that a start gives, in order of number.
fn two_seats<P: Pool<u32>>(pool: &P, mut seats: Vec<P::Seat>) -> (P::Seat, P::Seat)
    requires count { vec_len seats ≡ 2 }
    requires seats { (i : ℕ) (s : _) → get_elem? seats.items i ≡ some s → P.belongs pool.now s × IsNew i (P.account s) }
    ensures { P.belongs pool.now result.0 × P.belongs pool.now result.1 }
{
    let b = seats.remove(1);
    let a = seats.remove(0);
    (a, b)
}

fn is_shared<P: Sync>(_pool: &P) {}

fn is_sent<S: Send>(_seat: &S) {}

// A pool is shared, and a seat is sent, for tasks of any kind that may be sent.
fn may_cross<T: Drop + Send>(pool: &OneQueue<T>, seat: &QueueSeat<T>) {
    is_shared(pool);
    is_sent(seat);
}

fn may_cross_too<T: Drop + Send>(pool: &Stealing<T>, seat: &StealSeat<T>) {
    is_shared(pool);
    is_sent(seat);
}

#[test]
fn one_queue_passes_in_order(rt: HostRuntime) -> Result<(), Fail> {
    let (pool, seats) = start_queue(rt.alloc(), 2)?;
    let (mut a, mut b) = two_seats(&pool, seats);
    may_cross(&pool, &a);
    assert_eq!(&rt; pass_in_order(&rt, &pool, &mut a, &mut b), true);
    Ok(())
}

// The second seat steals each task, also those past the room of the first one's deque.
#[test]
fn deques_pass_in_order(rt: HostRuntime) -> Result<(), Fail> {
    let (pool, seats) = start_deques(rt.alloc(), 2, 4)?;
    let (mut a, mut b) = two_seats(&pool, seats);
    may_cross_too(&pool, &a);
    assert_eq!(&rt; pass_in_order(&rt, &pool, &mut a, &mut b), true);
    let (pool, seats) = start_deques(rt.alloc(), 2, 1)?;
    let (mut a, mut b) = two_seats(&pool, seats);
    assert_eq!(&rt; pass_in_order(&rt, &pool, &mut a, &mut b), true);
    Ok(())
}

// Puts numbers and takes them by one seat: whether they come out in order. Those that a queue does not take for want of memory,
// and those that are put while some of them wait, are in the seat's spare list, behind what the queue took.
fn pass_alone<P: Pool<u32>, R: Wait>(rt: &R, pool: &P, seat: &mut P::Seat) -> bool
    requires { P.belongs pool.now seat.old }
{
    put_range(rt, pool, seat, 1, 101)
        && takes_range(rt, pool, seat, 1, 41)
        && put_range(rt, pool, seat, 101, 201)
        && takes_range(rt, pool, seat, 41, 201)
        && pool.take(rt, seat).is_none()
}

// A block of the queue has room for 31 tasks, and the deque for 4 at first.
#[test]
fn spare_tasks_are_taken_in_order(rt: HostRuntime) -> Result<(), Fail> {
    let (pool, seats) = start_queue(rt.alloc(), 2)?;
    let (mut a, _b) = two_seats(&pool, seats);
    assert_eq!(&rt; pass_alone(&rt, &pool, &mut a), true);
    let (pool, seats) = start_deques(rt.alloc(), 2, 4)?;
    let (mut a, _b) = two_seats(&pool, seats);
    assert_eq!(&rt; pass_alone(&rt, &pool, &mut a), true);
    Ok(())
}

const ALL: u32 = 100_000;

// Puts every fourth number from the first on, and takes a task after each: what was taken.
fn put_and_take<P: Pool<u32>, R: Wait>(
    rt: &R,
    alloc: Global,
    pool: &P,
    mut seat: P::Seat,
    first: u32,
) -> (P::Seat, Vec<u32>)
    requires seat { P.belongs pool.now seat }
    requires first { first < 4 }
    ensures seat { P.belongs pool.now result.0 }
    ensures numbers { (P.account result.0).numbers ≡ (P.account seat).numbers }
{
    let mut taken = Vec::new(alloc);
    for turn in 0..ALL / 4 {
        if pool.put(rt, &mut seat, first + 4 * turn).is_err() {
            break;
        }
        if let Some(task) = pool.take(rt, &mut seat) {
            if taken.push(task).is_err() {
                break;
            }
        }
    }
    (seat, taken)
}

// Two threads put and take; then their seats are joined.
#[tactic(auto, using(crate::proofs::Apartness::apart_ones))]
fn by_two<P: Pool<u32>, R: Threads + Wait + Sync>(
    rt: &R,
    alloc: Global,
    pool: &P,
    a: P::Seat,
    b: P::Seat,
    first: u32,
) -> (P::Seat, Vec<u32>, Vec<u32>)
    requires seats { P.belongs pool.now a × P.belongs pool.now b }
    requires numbers { ((P.account a).numbers ≡ first ∷ []) × ((P.account b).numbers ≡ (first + 1) ∷ []) }
    requires enough { 2 ≤ P.seats pool.now }
    requires first { first < 3 }
    ensures seat { P.belongs pool.now result.0 }
    ensures numbers { (P.account result.0).numbers ≡ first ∷ (first + 1) ∷ [] }
{
    let ((mut a, by_a), (b, by_b)) = thread::join(
        rt,
        move ||
            requires { P.belongs pool.now a × ((P.account a).numbers ≡ first ∷ []) × (first < 3) }
            ensures { P.belongs pool.entry.now result.0 × ((P.account result.0).numbers ≡ first ∷ []) }
        { put_and_take(rt, alloc, pool, a, first) },
        move ||
            requires { P.belongs pool.now b × ((P.account b).numbers ≡ (first + 1) ∷ []) × (first < 3) }
            ensures { P.belongs pool.entry.now result.0 × ((P.account result.0).numbers ≡ (first + 1) ∷ []) }
        { put_and_take(rt, alloc, pool, b, first + 1) },
    );
    pool.join(&mut a, b);
    (a, by_a, by_b)
}

// Marks the numbers of a list: whether none was marked before.
fn marks(seen: &mut Vec<bool>, numbers: &Vec<u32>) -> bool {
    for number in numbers {
        let place = *number as usize;
        if place >= seen.len() || seen[place] {
            return false;
        }
        seen[place] = true;
    }
    true
}

// Takes what is left.
fn drain<P: Pool<u32>, R: Wait>(
    rt: &R,
    alloc: Global,
    pool: &P,
    seat: &mut P::Seat,
) -> Result<Vec<u32>, AllocError>
    requires { P.belongs pool.now seat.old }
{
    let mut rest = Vec::new(alloc);
    for _ in 0..ALL {
        let Some(task) = pool.take(rt, seat) else {
            break;
        };
        rest.push(task)?;
    }
    Ok(rest)
}

// The four seats that a start gives, in order of number.
fn four_seats<P: Pool<u32>>(
    pool: &P,
    mut seats: Vec<P::Seat>,
) -> (P::Seat, P::Seat, P::Seat, P::Seat)
    requires count { vec_len seats ≡ 4 }
    requires seats { (i : ℕ) (s : _) → get_elem? seats.items i ≡ some s → P.belongs pool.now s × IsNew i (P.account s) }
    ensures first { P.belongs pool.now result.0 × P.belongs pool.now result.1 }
    ensures second { P.belongs pool.now result.2 × P.belongs pool.now result.3 }
    ensures first_numbers { ((P.account result.0).numbers ≡ 0 ∷ []) × ((P.account result.1).numbers ≡ 1 ∷ []) }
    ensures second_numbers { ((P.account result.2).numbers ≡ 2 ∷ []) × ((P.account result.3).numbers ≡ 3 ∷ []) }
{
    let d = seats.remove(3);
    let c = seats.remove(2);
    let b = seats.remove(1);
    let a = seats.remove(0);
    (a, b, c, d)
}

// Whether four threads that put and take leave each number taken once.
#[tactic(auto, using(crate::proofs::Apartness::apart_twos))]
fn take_each_once<P: Pool<u32>, R: Threads + Wait + Sync>(
    rt: &R,
    alloc: Global,
    pool: &P,
    seats: Vec<P::Seat>,
) -> Result<bool, AllocError>
    requires count { vec_len seats ≡ 4 }
    requires seats { (i : ℕ) (s : _) → get_elem? seats.items i ≡ some s → P.belongs pool.now s × IsNew i (P.account s) }
    requires enough { 4 ≤ P.seats pool.now }
{
    let (a, b, c, d) = four_seats(pool, seats);
    let ((mut ab, by_a, by_b), (cd, by_c, by_d)) = thread::join(
        rt,
        move ||
            requires { P.belongs pool.now a × P.belongs pool.now b × ((P.account a).numbers ≡ 0 ∷ []) × ((P.account b).numbers ≡ 1 ∷ []) × (4 ≤ P.seats pool.now) }
            ensures { P.belongs pool.entry.now result.0 × ((P.account result.0).numbers ≡ 0 ∷ 1 ∷ []) }
        { by_two(rt, alloc, pool, a, b, 0) },
        move ||
            requires { P.belongs pool.now c × P.belongs pool.now d × ((P.account c).numbers ≡ 2 ∷ []) × ((P.account d).numbers ≡ 3 ∷ []) × (4 ≤ P.seats pool.now) }
            ensures { P.belongs pool.entry.now result.0 × ((P.account result.0).numbers ≡ 2 ∷ 3 ∷ []) }
        { by_two(rt, alloc, pool, c, d, 2) },
    );
    pool.join(&mut ab, cd);
    let rest = drain(rt, alloc, pool, &mut ab)?;
    let mut seen = Vec::from_elem(alloc, false, ALL as usize)?;
    let each_once = marks(&mut seen, &by_a)
        && marks(&mut seen, &by_b)
        && marks(&mut seen, &by_c)
        && marks(&mut seen, &by_d)
        && marks(&mut seen, &rest);
    Ok(each_once && seen.iter().all(|taken| *taken))
}

#[test]
fn four_threads_take_each_once_from_one_queue(rt: HostRuntime) -> Result<(), Fail> {
    let (pool, seats) = start_queue(rt.alloc(), 4)?;
    assert_eq!(&rt; take_each_once(&rt, rt.alloc(), &pool, seats)?, true);
    Ok(())
}

#[test]
fn four_threads_take_each_once_from_deques(rt: HostRuntime) -> Result<(), Fail> {
    let (pool, seats) = start_deques(rt.alloc(), 4, 4)?;
    assert_eq!(&rt; take_each_once(&rt, rt.alloc(), &pool, seats)?, true);
    Ok(())
}
