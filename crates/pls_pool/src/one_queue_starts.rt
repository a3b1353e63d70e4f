//! The start of a pool of one queue: the queue, and its seats.
ghost use Rattle.std.specs.Prelude.{◌≡◌, ℕ, ◌+◌, ◌-◌, ◌<◌, ◌≤◌, IfOk, Some, [], ◌∷◌, vec_len};
ghost use Rattle.crossbeam_queue.specs.SegTies.{IsSegPassOf};
ghost use Rattle.std.specs.List.{range_with_len};
ghost use Rattle.pls_pool.specs.Hands.{started, first};
ghost use Rattle.pls_pool.specs.QueueSeats.{hand_of, IsQueueSeatOf, IsNewQueueSeat};
ghost use mathlib.Core.Option.{some};
ghost use lib.ListN.{get_elem?};

use crate::hand::Hand;
use crate::one_queue::{OneQueue, QueueSeat};
use crate::task_plays::{Begin, Notes, Said};
use crossbeam_queue::{RuledSegQueue, SegPass};
use std::alloc::{AllocError, Global};
use std::collections::LinkedList;
use std::marker::Brand;

impl<T: Drop> OneQueue<T> {
    // The first seat learns how many seats there are.
    fn plan<W: Said<T>>(&self, pass: &mut SegPass<T, Hand<T>, Global>, seats: u32)
        requires queue { IsSegPassOf self.now.queue pass.old }
        requires first { pass.old.me.view.client ≡ first }
        requires seats { 0 < seats }
        requires said { W.now ≡ Some (started seats (range_with_len 0 seats)) }
        ensures queue { IsSegPassOf self.now.queue pass.new }
        ensures planned { pass.new.me.view.client ≡ started seats (range_with_len 0 seats) }
    {
        drop(self.queue.another::<Notes<W>>(pass));
    }

    // The pool, with the pass of a seat that holds all.
    fn lay(
        alloc: Global,
        seats: u32,
    ) -> Result<(OneQueue<T>, SegPass<T, Hand<T>, Global>), AllocError>
        requires { (1 ≤ seats) × (seats ≤ 16) }
        ensures seats { IfOk result (λ t. t.0.seats ≡ seats) }
        ensures pass { IfOk result (λ t. IsSegPassOf t.0.queue t.1 × (t.1.me.view.client ≡ started seats (range_with_len 0 seats))) }
    {
        let (queue, mut pass) = RuledSegQueue::with_rule(alloc)?;
        let pool = OneQueue { queue, seats };
        pool.plan::<Brand>(&mut pass, seats);
        Ok((pool, pass))
    }

    // A seat of the start.
    fn seated(&self, alloc: Global, pass: SegPass<T, Hand<T>, Global>) -> QueueSeat<T>
        requires queue { IsSegPassOf self.now.queue pass }
        requires started { (k : ℕ) × (pass.me.view.client ≡ started self.now.seats (k ∷ [])) }
        ensures seat { IsQueueSeatOf self.now result }
        ensures hand { hand_of result ≡ pass.me.view.client }
        ensures bare { result.spare ≡ [] }
    {
        QueueSeat {
            pass,
            spare: LinkedList::new(alloc),
        }
    }

    // The seats but one, in order of number, each split off from the pass that holds all.
    fn split_others(
        &self,
        alloc: Global,
        pass: &mut SegPass<T, Hand<T>, Global>,
    ) -> Result<Vec<QueueSeat<T>>, AllocError>
        requires queue { IsSegPassOf self.now.queue pass.old }
        requires all { pass.old.me.view.client ≡ started self.now.seats (range_with_len 0 self.now.seats) }
        ensures queue { IsSegPassOf self.now.queue pass.new }
        ensures last { IfOk result (λ _. pass.new.me.view.client ≡ started self.now.seats ((self.now.seats - 1) ∷ [])) }
        ensures count { IfOk result (λ others. vec_len others + 1 ≡ self.now.seats) }
        ensures others { IfOk result (λ others. (i : ℕ) (s : _) → get_elem? others.items i ≡ some s → IsNewQueueSeat self.now i s) }
    {
        let mut others = Vec::with_capacity(alloc, self.seats as usize)?;
        for _ in 1..self.seats {
            let other = self.queue.another::<Begin>(pass);
            let other = self.seated(alloc, other);
            others.push(other)?;
        }
        Ok(others)
    }

    /// A pool without tasks, with so many seats, in order of number. An error means that memory ran out.
    pub fn start(alloc: Global, seats: u32) -> Result<(OneQueue<T>, Vec<QueueSeat<T>>), AllocError>
        requires { (1 ≤ seats) × (seats ≤ 16) }
        ensures pool { IfOk result (λ t. t.0.seats ≡ seats) }
        ensures count { IfOk result (λ t. vec_len t.1 ≡ seats) }
        ensures seats { IfOk result (λ t. (i : ℕ) (s : _) → get_elem? t.1.items i ≡ some s → IsNewQueueSeat t.0 i s) }
    {
        let (pool, mut pass) = OneQueue::lay(alloc, seats)?;
        let mut all = pool.split_others(alloc, &mut pass)?;
        let last = pool.seated(alloc, pass);
        all.push(last)?;
        Ok((pool, all))
    }
}
