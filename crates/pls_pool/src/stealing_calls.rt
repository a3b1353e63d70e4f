//! The calls of a pool of deques.
ghost use Rattle.std.specs.Prelude.{◌≡◌, ℕ, ◌+◌, ◌<◌, ◌≤◌, [], length, vec_len, IsOk, MatchOption, MatchResult};
ghost use Rattle.pls_pool.specs.Accounts.{Puts, Takes};
ghost use Rattle.pls_pool.specs.Reaches.{hand_at};
ghost use Rattle.pls_pool.specs.StealSeats.{account_of, IsStealSeatOf, IsSame, IsBareAt, HasRoom, MayJoin, AreAllJoined};
ghost use mathlib.Core.Option.{some};
ghost use lib.ListN.{get_elem?};

use crate::pool::Pool;
use crate::spare::put_aside;
use crate::stealing::{Reach, StealSeat, Stealing};
use crate::stealing_reaches::{note_spare, put_into, put_together, take_from};
use std::marker::Brand;
use std::sync::Wait;

// What another seat has at each deque comes to what this one has there.
fn put_all_together<T: Drop>(mine: &mut Vec<Reach<T>>, mut theirs: Vec<Reach<T>>)
    requires count { vec_len theirs ≡ vec_len mine.old }
    requires join { (j : ℕ) (r s : _) → get_elem? mine.old.items j ≡ some r → get_elem? theirs.items j ≡ some s → MayJoin r s }
    ensures { AreAllJoined mine.old.items theirs.items mine.new.items }
{
    for _ in 0..mine.len() {
        let Some(other) = theirs.pop() else {
            unreachable!()
        };
        put_together(&mut mine[theirs.len()], other);
    }
}

impl<T: Drop> Stealing<T> {
    // The first task of a deque, if it has one.
    fn take_at<R: Wait>(&self, rt: &R, seat: &mut StealSeat<T>, number: usize) -> Option<T>
        requires seat { IsStealSeatOf self.now seat.old }
        requires number { number < vec_len self.now.stealers }
        ensures seat { IsStealSeatOf self.now seat.new }
        ensures taken { MatchOption result (IsSame seat.old seat.new × IsBareAt number seat.new) (λ x. Takes (vec_len self.now.stealers) x (account_of seat.old) (account_of seat.new)) }
    {
        take_from(rt, &self.stealers[number], &mut seat.reaches[number])
    }

    // The front of the spare list, after the seat's own deque was empty.
    fn take_spare(&self, seat: &mut StealSeat<T>) -> Option<T>
        requires seat { IsStealSeatOf self.now seat.old }
        requires bare { IsBareAt seat.old.number seat.old }
        ensures seat { IsStealSeatOf self.now seat.new }
        ensures taken { MatchOption result (IsSame seat.old seat.new × (seat.new.spare ≡ [])) (λ x. Takes (vec_len self.now.stealers) x (account_of seat.old) (account_of seat.new)) }
    {
        let task = seat.spare.pop_front()?;
        note_spare::<T, Brand>(&mut seat.reaches[seat.number], &task);
        Some(task)
    }

    // The first task of the deques with these numbers, if one of them has any.
    fn take_among<R: Wait>(
        &self,
        rt: &R,
        seat: &mut StealSeat<T>,
        from: usize,
        to: usize,
    ) -> Option<T>
        requires seat { IsStealSeatOf self.now seat.old }
        requires numbers { to ≤ vec_len self.now.stealers }
        ensures seat { IsStealSeatOf self.now seat.new }
        ensures taken { MatchOption result (IsSame seat.old seat.new × ((j : ℕ) → from ≤ j → j < to → IsBareAt j seat.new)) (λ x. Takes (vec_len self.now.stealers) x (account_of seat.old) (account_of seat.new)) }
    {
        for number in from..to {
            match self.take_at(rt, seat, number) {
                Some(task) => return Some(task),
                None => {}
            }
        }
        None
    }
}

impl<T: Drop + Send> Pool<T> for Stealing<T> {
    ghost use Rattle.std.specs.Prelude.{vec_len};
    ghost use Rattle.pls_pool.specs.StealSeats.{account_of, IsStealSeatOf};

    type Seat = StealSeat<T>;

    ghost seats = { λ q. vec_len q.stealers };

    ghost belongs = { IsStealSeatOf };

    ghost account = { account_of };

    fn put<R: Wait>(&self, _rt: &R, seat: &mut StealSeat<T>, task: T) -> Result<(), T>
        requires { IsStealSeatOf self.now seat.old }
        ensures seat { IsStealSeatOf self.now seat.new }
        ensures put { MatchResult result (λ _. Puts (vec_len self.now.stealers) task (account_of seat.old) (account_of seat.new)) (λ x. (x ≡ task) × (account_of seat.new ≡ account_of seat.old)) }

        // The first puts of a seat into which none was joined go to its deque.
        ensures first { HasRoom self.now seat.old → IsOk result × (seat.new.spare ≡ []) }
    {
        if !seat.spare.is_empty() {
            return put_aside(&mut seat.spare, task);
        }
        match put_into(&mut seat.reaches[seat.number], task) {
            Ok(()) => Ok(()),
            Err(task) => put_aside(&mut seat.spare, task),
        }
    }

    fn take<R: Wait>(&self, rt: &R, seat: &mut StealSeat<T>) -> Option<T> {
        let number = seat.number;
        match self.take_at(rt, seat, number) {
            Some(task) => return Some(task),
            None => {}
        }
        match self.take_spare(seat) {
            Some(task) => return Some(task),
            None => {}
        }
        match self.take_among(rt, seat, number + 1, self.stealers.len()) {
            Some(task) => return Some(task),
            None => {}
        }
        self.take_among(rt, seat, 0, number)
    }

    fn join(&self, seat: &mut StealSeat<T>, other: StealSeat<T>) {
        let StealSeat {
            number: _,
            reaches: theirs,
            spare: mut more,
        } = other;
        put_all_together(&mut seat.reaches, theirs);
        let Ok(()) = seat.spare.append(&mut more) else {
            unreachable!()
        };
    }
}
