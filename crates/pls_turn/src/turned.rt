//! The archive, and a pass at it.
ghost use Rattle.std.specs.Prelude.{◌≡◌, ◌%◌};

use crate::plays::Turning;
use crate::seen::Turn;
use crate::terms::Terms;
use atomic_table::{Seat, Table};
use pls_archive::Single;
use std::alloc::Global;

/// An archive that the threads of its passes share by turns. One word is twice the number of accepting entries, plus 1 while a
/// turn is held.
#[derive(Drop)]
pub struct Turned<S: Single> {
    pub(crate) table: Table<S, Turn<S>, Terms<S>, Turning, Global>,
    ghost counts: { (table.shared.table_id.words ≡ 1) × (table.shared.table_id.slots ≡ 1) },
}

/// The pass of one thread, with the word that it stored last, from which it guesses the next one.
#[derive(Drop)]
pub struct TurnPass<S> {
    pub(crate) seat: Seat<S, Turn<S>>,
    pub(crate) word: u64,
    ghost even: { word % 2 ≡ 0 },
}
