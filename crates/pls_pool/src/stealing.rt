//! A deque for each seat, and a seat that reaches all of them.
ghost use Rattle.std.specs.Prelude.{◌≤◌, vec_len};

use crate::hand::Hand;
use crate::task_plays::Keeping;
use crossbeam_deque::{Pass, Stealer, Worker};
use std::alloc::Global;
use std::collections::LinkedList;

pub(crate) type Owner<T> = Worker<T, Global, Hand<T>, Keeping>;

pub(crate) type Thief<T> = Stealer<T, Global, Hand<T>, Keeping>;

pub(crate) type Guest<T> = Pass<T, Hand<T>, Global>;

/// Tasks in a deque for each seat, from which the other seats steal.
#[derive(Drop)]
pub struct Stealing<T: Drop> {
    pub(crate) stealers: Vec<Thief<T>>,
    // So many puts of a seat into which none was joined go to its deque.
    pub(crate) room: usize,
    ghost few_seats: { vec_len stealers ≤ 16 },
}

/// What a seat has at one deque: the worker, or else a pass of each seat that it holds, to steal with.
#[derive(Drop)]
pub(crate) enum Reach<T: Drop> {
    Own(Owner<T>),
    Guests(LinkedList<Guest<T>>),
}

/// One worker's seat, with its spare list: the tasks that its deque did not take.
#[derive(Drop)]
pub struct StealSeat<T: Drop> {
    pub(crate) number: usize,
    // One for each deque, in order of number. It has the worker of its own.
    pub(crate) reaches: Vec<Reach<T>>,
    pub(crate) spare: LinkedList<T>,
}
