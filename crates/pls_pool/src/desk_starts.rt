//! The start of a desk: its words, and its seats.
ghost use Rattle.std.specs.Prelude.{◌≡◌, ℕ, ◌+◌, ◌^◌, ◌≤◌, IfOk, [], vec_len};
ghost use Rattle.pls_pool.specs.Tallies.{started};
ghost use Rattle.pls_pool.specs.DeskSeats.{IsNewDeskSeat};
ghost use mathlib.Core.Option.{some};
ghost use lib.ListN.{get_elem?};

use crate::desk::{Desk, DeskSeat};
use crate::desk_plays::Begin;
use crate::sizes::Sizes;
use crate::tally::Tally;
use atomic_table::{Seat, Table};
use std::alloc::{AllocError, Global};

impl Desk {
    // The desk, with a seat that holds all.
    fn lay(alloc: Global, moves: u64, seats: u32) -> Result<(Desk, Seat<(), Tally>), AllocError>
        requires moves { moves ≤ 10 ^ 9 }
        requires seats { (1 ≤ seats) × (seats ≤ 16) }
        ensures sizes { IfOk result (λ t. (t.0.moves ≡ moves) × (t.0.seats ≡ seats)) }
        ensures seat { IfOk result (λ t. (t.1.table_id ≡ t.0.table.shared.table_id) × (t.1.me ≡ (started moves seats seats, []))) }
    {
        let key = Sizes { moves, seats };
        let words = [0u64; 17];
        let (table, seat) = Table::of_words(alloc, &words, &key)?;
        let desk = Desk {
            table,
            moves,
            seats,
        };
        Ok((desk, seat))
    }

    // A seat of the start.
    fn seated(&self, seat: Seat<(), Tally>) -> DeskSeat
        requires table { seat.table_id ≡ self.now.table.shared.table_id }
        requires starts { seat.me ≡ (started self.now.moves self.now.seats 1, []) }
        ensures { IsNewDeskSeat self.now result }
    {
        DeskSeat { seat }
    }

    // The seats but one, each with a share that the seat which holds all gives away.
    fn split_others(
        &self,
        alloc: Global,
        seat: &mut Seat<(), Tally>,
    ) -> Result<Vec<DeskSeat>, AllocError>
        requires table { seat.old.table_id ≡ self.now.table.shared.table_id }
        requires all { seat.old.me ≡ (started self.now.moves self.now.seats self.now.seats, []) }
        ensures table { seat.new.table_id ≡ self.now.table.shared.table_id }
        ensures one { IfOk result (λ _. seat.new.me ≡ (started self.now.moves self.now.seats 1, [])) }
        ensures count { IfOk result (λ others. vec_len others + 1 ≡ self.now.seats) }
        ensures others { IfOk result (λ others. (i : ℕ) (s : _) → get_elem? others.items i ≡ some s → IsNewDeskSeat self.now s) }
    {
        let mut others = Vec::with_capacity(alloc, self.seats as usize)?;
        for _ in 1..self.seats {
            let other = self.table.shared.split_seat::<Begin>(seat);
            let other = self.seated(other);
            others.push(other)?;
        }
        Ok(others)
    }

    /// A desk with so many moves and seats; no task is open, no move drawn, and no cause halts it. An error means that memory
    /// ran out.
    pub fn start(alloc: Global, moves: u64, seats: u32) -> Result<(Desk, Vec<DeskSeat>), AllocError>
        requires moves { moves ≤ 10 ^ 9 }
        requires seats { (1 ≤ seats) × (seats ≤ 16) }
        ensures sizes { IfOk result (λ t. (t.0.moves ≡ moves) × (t.0.seats ≡ seats)) }
        ensures count { IfOk result (λ t. vec_len t.1 ≡ seats) }
        ensures seats { IfOk result (λ t. (i : ℕ) (s : _) → get_elem? t.1.items i ≡ some s → IsNewDeskSeat t.0 s) }
    {
        let (desk, mut seat) = Desk::lay(alloc, moves, seats)?;
        let mut all = desk.split_others(alloc, &mut seat)?;
        let first = desk.seated(seat);
        all.push(first)?;
        Ok((desk, all))
    }
}
