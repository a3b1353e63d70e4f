//! The desk, and a seat at it.
ghost use Rattle.std.specs.Prelude.{◌≡◌, ◌^◌, ◌≤◌, []};

use crate::desk_plays::Keeping;
use crate::sizes::Sizes;
use crate::tally::Tally;
use atomic_table::{Seat, Table};
use std::alloc::Global;

/// The counts of a run of several workers, on three words that they share.
#[derive(Drop)]
pub struct Desk {
    pub(crate) table: Table<(), Tally, Sizes, Keeping, Global>,
    pub(crate) moves: u64,
    pub(crate) seats: u32,
    ghost sized: { table.shared.key ≡ record { moves = moves; seats = seats } },
    ghost long: { table.shared.table_id.words ≡ 17 },
    ghost few_moves: { moves ≤ 10 ^ 9 },
    ghost some_seats: { 1 ≤ seats },
    ghost few_seats: { seats ≤ 16 },
}

/// One worker's seat at the desk. It has no bytes.
#[derive(Drop)]
pub struct DeskSeat {
    pub(crate) seat: Seat<(), Tally>,
    ghost bare: { seat.me.1 ≡ [] },
}
