//! What a seat of a pool did at one queue.

use std::collections::LinkedList;

/// What a seat did at one queue, with the seats joined into it. Contracts alone see it: no value of it is made.
pub struct Hand<T> {
    /// How many seats the pool was made for.
    pub seats: u32,
    /// The numbers of the seats that it holds: its own, and then those of the seats joined into it.
    pub numbers: LinkedList<u32>,
    /// The tasks that it put into the queue, and those that it took from the queue.
    pub put: LinkedList<T>,
    pub taken: LinkedList<T>,
    /// The tasks that it took from its spare list.
    pub from_spare: LinkedList<T>,
}
