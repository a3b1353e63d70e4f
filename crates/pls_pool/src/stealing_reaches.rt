//! What a seat does at one deque.
ghost use Rattle.std.specs.Prelude.{◌≡◌, ℕ, ◌+◌, ◌^◌, ◌<◌, ◌≤◌, Some, [], ◌∷◌, length, vec_len, MatchOption, MatchResult, OnErr};
ghost use Rattle.crossbeam_deque.specs.Handles.{view, IsPassOf, stealer_deque, stealer_flavor, worker_view, worker_index, SameWorker};
ghost use Rattle.pls_pool.specs.Hands.{putting, taking_spare, joining};
ghost use Rattle.pls_pool.specs.TaskRule.{IsWhole, TookPut, Learns, TakesFrom};
ghost use Rattle.pls_pool.specs.Reaches.{guests_hand, hand_at, IsReach, ArePassesOf, AreOneReach, StaysReach, TookOne, PutsTogether, IsFullAt};

use crate::stealing::{Guest, Owner, Reach, Thief};
use crate::task_plays::{Absorb, Notes, Puts, Said, Takes};
use crossbeam_deque::Steal;
use std::collections::LinkedList;
use std::sync::Wait;

// The first task of another's deque, if it has one.
fn steal_with<T: Drop, R: Wait>(rt: &R, stealer: &Thief<T>, pass: &mut Guest<T>) -> Option<T>
    requires deque { IsPassOf (stealer_deque stealer.now) pass.old }
    requires fifo { stealer_flavor stealer.now ≡ 0 }
    requires holds { 0 < length (view pass.old).numbers }
    ensures deque { IsPassOf (stealer_deque stealer.now) pass.new }
    ensures taken { MatchOption result (view pass.new ≡ view pass.old) (λ x. TakesFrom (view pass.old) (x ∷ []) (view pass.new)) }
{
    for _ in rt.forever() {
        match stealer.steal_as::<Takes>(pass) {
            Steal::Success(task) => return Some(task),
            Steal::Empty => return None,
            Steal::Retry => {}
        }
    }
    unreachable!()
}

// The worker takes over what others did at its deque.
fn absorb_all<T: Drop>(worker: &mut Owner<T>, passes: &mut LinkedList<Guest<T>>)
    requires holds { 0 < length (worker_view worker.old).numbers }
    requires passes { ArePassesOf worker.old passes.old }
    ensures same { SameWorker worker.old worker.new × (worker_index worker.new ≡ worker_index worker.old) }
    ensures joined { worker_view worker.new ≡ joining (worker_view worker.old) (guests_hand passes.old) }
    ensures among { IsWhole (worker_view worker.new) → TookPut (worker_view worker.new) }
{
    for _ in 0..passes.len() {
        let Some(pass) = passes.pop_front() else {
            unreachable!()
        };
        worker.absorb::<Absorb>(pass);
    }
    worker.len_as::<Takes>();
}

// What another seat has at one deque comes to what this one has there.
pub(crate) fn put_together<T: Drop>(mine: &mut Reach<T>, other: Reach<T>)
    requires one { AreOneReach mine.old other }
    requires apart { 0 < (hand_at mine.old).seats → (hand_at other).seats ≡ 0 }
    requires few { length (hand_at mine.old).numbers + length (hand_at other).numbers < 2 ^ 63 }
    ensures reach { (seats : ℕ) (room : ℕ) (stealer : _) → IsReach seats room stealer mine.old → IsReach seats room stealer other → IsReach seats room stealer mine.new }
    ensures joined { PutsTogether (hand_at mine.old) (hand_at other) (hand_at mine.new) }
{
    match mine {
        Reach::Own(worker) => {
            let Reach::Guests(mut passes) = other else {
                unreachable!()
            };
            absorb_all(worker, &mut passes);
        }
        Reach::Guests(passes) => match other {
            Reach::Own(mut worker) => {
                absorb_all(&mut worker, passes);
                *mine = Reach::Own(worker);
            }
            Reach::Guests(mut others) => {
                let Ok(()) = passes.append(&mut others) else {
                    unreachable!()
                };
            }
        },
    }
}

// A task goes into the seat's own deque, or comes back.
pub(crate) fn put_into<T: Drop>(reach: &mut Reach<T>, task: T) -> Result<(), T>
    requires own { 0 < (hand_at reach.old).seats }
    requires holds { 0 < length (hand_at reach.old).numbers }
    ensures reach { StaysReach reach.old reach.new }
    ensures put { MatchResult result (λ _. hand_at reach.new ≡ putting (task ∷ []) (hand_at reach.old)) (λ x. (x ≡ task) × (hand_at reach.new ≡ hand_at reach.old)) }
    ensures refused { OnErr result (IsFullAt (length (hand_at reach.old).put) reach.old) }
{
    match reach {
        Reach::Own(worker) => worker.push_as::<Puts>(task),
        Reach::Guests(_) => unreachable!(),
    }
}

// The seat notes that it took a spare task.
pub(crate) fn note_spare<T: Drop, W: Said<T>>(reach: &mut Reach<T>, task: &T)
    requires own { 0 < (hand_at reach.old).seats }
    requires holds { 0 < length (hand_at reach.old).numbers }
    requires said { W.now ≡ Some (taking_spare task.now (hand_at reach.old)) }
    ensures reach { StaysReach reach.old reach.new }
    ensures hand { hand_at reach.new ≡ taking_spare task.now (hand_at reach.old) }
{
    match reach {
        Reach::Own(worker) => drop(worker.another::<Notes<W>>()),
        Reach::Guests(_) => unreachable!(),
    }
}

// The first task of a deque, if it has one.
pub(crate) fn take_from<T: Drop, R: Wait>(
    rt: &R,
    stealer: &Thief<T>,
    reach: &mut Reach<T>,
) -> Option<T>
    requires reach { (seats : ℕ) × (room : ℕ) × IsReach seats room stealer.now reach.old }
    ensures reach { (seats room : ℕ) → IsReach seats room stealer.now reach.old → IsReach seats room stealer.now reach.new }
    ensures taken { MatchOption result ((hand_at reach.new ≡ hand_at reach.old) × Learns (hand_at reach.old) []) (λ x. TookOne x (hand_at reach.old) (hand_at reach.new)) }
{
    match reach {
        Reach::Own(worker) => worker.pop_as::<Takes>(),
        Reach::Guests(passes) => {
            let Some(pass) = passes.front_mut() else {
                unreachable!()
            };
            steal_with(rt, stealer, pass)
        }
    }
}
