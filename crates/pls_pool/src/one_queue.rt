//! One queue for all, and a seat at it.
ghost use Rattle.std.specs.Prelude.{◌≡◌, ◌≤◌};

use crate::hand::Hand;
use crate::task_plays::Keeping;
use crossbeam_queue::{RuledSegQueue, SegPass};
use std::alloc::Global;
use std::collections::LinkedList;

/// Tasks in one queue that all seats share.
pub struct OneQueue<T> {
    pub(crate) queue: RuledSegQueue<T, Hand<T>, Keeping, Global>,
    pub(crate) seats: u32,
    ghost some_seats: { 1 ≤ seats },
    ghost few_seats: { seats ≤ 16 },
}

impl<T: Drop> Drop for OneQueue<T> {
    fn drop(self) {
        let OneQueue { queue, seats: _ } = self;
        queue.destroy();
    }
}

/// One worker's seat at the queue, with its spare list.
#[derive(Drop)]
pub struct QueueSeat<T: Drop> {
    pub(crate) pass: SegPass<T, Hand<T>, Global>,
    pub(crate) spare: LinkedList<T>,
}
