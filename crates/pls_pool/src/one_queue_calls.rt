//! The calls of a pool of one queue.
ghost use Rattle.std.specs.Prelude.{◌≡◌, Some, [], ◌∷◌, MatchOption};
ghost use Rattle.pls_pool.specs.Hands.{taking_spare};
ghost use Rattle.pls_pool.specs.TaskRule.{Learns};
ghost use Rattle.pls_pool.specs.QueueSeats.{hand_of, IsQueueSeatOf};

use crate::one_queue::{OneQueue, QueueSeat};
use crate::pool::Pool;
use crate::spare::put_aside;
use crate::task_plays::{Absorb, Notes, Puts, Said, Takes};
use std::marker::Brand;
use std::sync::Wait;

impl<T: Drop> OneQueue<T> {
    // The seat notes that it took a spare task.
    fn note_spare<W: Said<T>>(&self, seat: &mut QueueSeat<T>, task: &T)
        requires seat { IsQueueSeatOf self.now seat.old }
        requires said { W.now ≡ Some (taking_spare task.now (hand_of seat.old)) }
        ensures seat { IsQueueSeatOf self.now seat.new }
        ensures hand { hand_of seat.new ≡ taking_spare task.now (hand_of seat.old) }
        ensures spare { seat.new.spare ≡ seat.old.spare }
    {
        drop(self.queue.another::<Notes<W>>(&mut seat.pass));
    }

    // The front of the spare list, after the queue was empty.
    fn take_spare(&self, seat: &mut QueueSeat<T>) -> Option<T>
        requires seat { IsQueueSeatOf self.now seat.old }
        requires learns { Learns (hand_of seat.old) [] }
        ensures seat { IsQueueSeatOf self.now seat.new }
        ensures taken { MatchOption result ((hand_of seat.new ≡ hand_of seat.old) × (seat.old.spare ≡ []) × (seat.new.spare ≡ [])) (λ x. (hand_of seat.new ≡ taking_spare x (hand_of seat.old)) × (seat.old.spare ≡ x ∷ seat.new.spare)) }
    {
        let task = seat.spare.pop_front()?;
        self.note_spare::<Brand>(seat, &task);
        Some(task)
    }
}

impl<T: Drop + Send> Pool<T> for OneQueue<T> {
    ghost use Rattle.pls_pool.specs.QueueSeats.{account_of, IsQueueSeatOf};

    type Seat = QueueSeat<T>;

    ghost seats = { λ q. q.seats };

    ghost belongs = { IsQueueSeatOf };

    ghost account = { account_of };

    fn put<R: Wait>(&self, rt: &R, seat: &mut QueueSeat<T>, task: T) -> Result<(), T> {
        if !seat.spare.is_empty() {
            return put_aside(&mut seat.spare, task);
        }
        match self.queue.push_as::<Puts, R>(rt, &mut seat.pass, task) {
            Ok(()) => Ok(()),
            Err(task) => put_aside(&mut seat.spare, task),
        }
    }

    fn take<R: Wait>(&self, rt: &R, seat: &mut QueueSeat<T>) -> Option<T> {
        match self.queue.pop_as::<Takes, R>(rt, &mut seat.pass) {
            Some(task) => Some(task),
            None => self.take_spare(seat),
        }
    }

    fn join(&self, seat: &mut QueueSeat<T>, other: QueueSeat<T>) {
        let QueueSeat {
            pass,
            spare: mut more,
        } = other;
        self.queue.absorb::<Absorb>(&mut seat.pass, pass);
        let Ok(()) = seat.spare.append(&mut more) else {
            unreachable!()
        };
    }
}
