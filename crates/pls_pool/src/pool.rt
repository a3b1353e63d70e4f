//! Pools of tasks.

use std::sync::Wait;

/// A pool of tasks that several seats share: each task that is put is taken once, or is left.
///
/// Nothing is said of who takes a task, or that anybody does.
pub trait Pool<T>: Sync {
    ghost use Rattle.std.specs.Prelude.{◌≡◌, ℕ, ◌+◌, ◌≤◌, length, MatchOption, MatchResult};
    ghost use Rattle.pls_pool.specs.Accounts.{Account, Apart, Puts, Takes, FindsNone, Joins, HoldsAll, IsAmong};

    /// One worker's seat.
    type Seat: Send + Drop;

    /// How many seats the start made. No call changes it.
    ghost seats: { Self → ℕ };

    /// The seat is of this pool.
    ghost belongs: { Self → Self.Seat → Type 0 };

    /// What the seat did, with the seats joined into it.
    ghost account: { Self.Seat → Account T };

    /// Puts a task. It comes back only for want of memory, and is then not in the pool.
    fn put<R: Wait>(&self, rt: &R, seat: &mut Self::Seat, task: T) -> Result<(), T>
        requires { belongs self.now seat.old }
        ensures seat { belongs self.now seat.new }
        ensures put { MatchResult result (λ _. Puts (seats self.now) task (account seat.old) (account seat.new)) (λ x. (x ≡ task) × (account seat.new ≡ account seat.old)) };

    /// Takes a task. There is none only where the seat's spare list is empty, and each queue of the pool was empty at some
    /// moment of this call.
    fn take<R: Wait>(&self, rt: &R, seat: &mut Self::Seat) -> Option<T>
        requires { belongs self.now seat.old }
        ensures seat { belongs self.now seat.new }
        ensures taken { MatchOption result (FindsNone (seats self.now) (account seat.old) (account seat.new)) (λ x. Takes (seats self.now) x (account seat.old) (account seat.new)) }
        ensures among { HoldsAll (seats self.now) (account seat.new) → IsAmong (account seat.new) };

    /// The seat takes over what another did, and the tasks of its spare list.
    fn join(&self, seat: &mut Self::Seat, other: Self::Seat)
        requires seats { belongs self.now seat.old × belongs self.now other }
        requires apart { Apart (account seat.old).numbers (account other).numbers }
        requires few { length (account seat.old).numbers + length (account other).numbers ≤ seats self.now }
        ensures seat { belongs self.now seat.new }
        ensures joined { Joins (account seat.old) (account other) (account seat.new) };
}
