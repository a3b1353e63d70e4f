//! What a seat at the desk has done.

use crate::cause::Cause;
use std::collections::LinkedList;

/// What a seat has done, with the seats joined into it. Contracts alone see it: no value of it is made.
pub struct Tally {
    /// The moves and the seats of the desk.
    pub moves: u64,
    pub seats: u32,
    /// How many seats it holds: itself, and those joined into it.
    pub share: u64,
    /// How many tasks were opened, and how many were done.
    pub opened: u64,
    pub done: u64,
    /// How many draws were made, and how many of them gave a move.
    pub draws: u64,
    pub goes: u64,
    /// The causes for which the run was halted.
    pub halts: LinkedList<Cause>,
    /// The word that the last draw or look found.
    pub found: u64,
}
