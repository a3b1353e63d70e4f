//! The calls of the desk. Each is one step on one word, which waits for nobody.
ghost use Rattle.std.specs.Prelude.{◌≡◌, ◌<◌, ◌↔◌, IsTrue};
ghost use Rattle.pls_pool.specs.Tallies.{bit_of, opening, closing, drawing, draw_at, finding, halting, joining};
ghost use Rattle.pls_pool.specs.DeskRule.{LearnsOpen, LearnsCauses};
ghost use Rattle.pls_pool.specs.DeskSeats.{tally_of, IsDeskSeatOf};

use crate::cause::{Cause, Draw};
use crate::desk::{Desk, DeskSeat};
use crate::desk_plays::{Absorb, Done, Halt, LookCauses, LookOpen, Next, Open};

// The places of the three words. No two of them lie in one cache line of 64 bytes.
const OPEN: usize = 0;

const DRAWN: usize = 8;

const CAUSES: usize = 16;

// The bit of a cause in the third word.
fn bit(cause: Cause) -> u64
    ensures { result ≡ bit_of cause }
{
    match cause {
        Cause::Spent => 1,
        Cause::Full => 2,
        Cause::Memory => 4,
    }
}

impl Desk {
    /// Counts a task that is now open.
    pub fn opened(&self, seat: &mut DeskSeat)
        requires { IsDeskSeatOf self.now seat.old }
        ensures seat { IsDeskSeatOf self.now seat.new }
        ensures tally { tally_of seat.new ≡ opening (tally_of seat.old) }
    {
        self.table.shared.fetch_add::<Open>(&mut seat.seat, OPEN, 1);
    }

    /// Counts a task that is done.
    pub fn done(&self, seat: &mut DeskSeat)
        requires { IsDeskSeatOf self.now seat.old }
        ensures seat { IsDeskSeatOf self.now seat.new }
        ensures tally { tally_of seat.new ≡ closing (tally_of seat.old) }
    {
        self.table.shared.fetch_sub::<Done>(&mut seat.seat, OPEN, 1);
    }

    /// Whether as many tasks are done as were opened, by all seats and modulo 2^64.
    pub fn quiet(&self, seat: &mut DeskSeat) -> bool
        requires { IsDeskSeatOf self.now seat.old }
        ensures seat { IsDeskSeatOf self.now seat.new }
        ensures tally { tally_of seat.new ≡ finding (tally_of seat.new).found (tally_of seat.old) }
        ensures answer { IsTrue result ↔ ((tally_of seat.new).found ≡ 0) }
        ensures learns { LearnsOpen (tally_of seat.new).found (tally_of seat.new) }
    {
        self.table.shared.load::<LookOpen>(&mut seat.seat, OPEN) == 0
    }

    /// Draws a move. A seat that drew in vain draws no more.
    pub fn draw(&self, seat: &mut DeskSeat) -> Draw
        requires seat { IsDeskSeatOf self.now seat.old }
        requires fresh { (tally_of seat.old).draws ≡ (tally_of seat.old).goes }
        ensures seat { IsDeskSeatOf self.now seat.new }
        ensures tally { tally_of seat.new ≡ drawing (tally_of seat.new).found (tally_of seat.old) }
        ensures answer { result ≡ draw_at (tally_of seat.new).found self.now.moves }
        ensures again { result ≡ Draw.Go → (tally_of seat.new).draws ≡ (tally_of seat.new).goes }
    {
        let number = self
            .table
            .shared
            .fetch_add::<Next>(&mut seat.seat, DRAWN, 1);
        if number < self.moves {
            Draw::Go
        } else {
            Draw::Spent
        }
    }

    /// Halts the run for this cause.
    pub fn halt(&self, seat: &mut DeskSeat, cause: Cause)
        requires { IsDeskSeatOf self.now seat.old }
        ensures seat { IsDeskSeatOf self.now seat.new }
        ensures tally { tally_of seat.new ≡ halting cause (tally_of seat.old) }
    {
        self.table
            .shared
            .fetch_or::<Halt>(&mut seat.seat, CAUSES, bit(cause));
    }

    /// Whether some seat halted the run.
    pub fn halted(&self, seat: &mut DeskSeat) -> bool
        requires { IsDeskSeatOf self.now seat.old }
        ensures seat { IsDeskSeatOf self.now seat.new }
        ensures tally { tally_of seat.new ≡ finding (tally_of seat.new).found (tally_of seat.old) }
        ensures answer { IsTrue result ↔ (0 < (tally_of seat.new).found) }
        ensures learns { LearnsCauses (tally_of seat.new).found (tally_of seat.new) }
    {
        self.table.shared.load::<LookCauses>(&mut seat.seat, CAUSES) != 0
    }

    /// The seat takes over what another did, and the seats that it holds.
    pub fn join(&self, seat: &mut DeskSeat, other: DeskSeat)
        requires { IsDeskSeatOf self.now seat.old × IsDeskSeatOf self.now other }
        ensures seat { IsDeskSeatOf self.now seat.new }
        ensures tally { tally_of seat.new ≡ joining (tally_of seat.old) (tally_of other) }
    {
        let DeskSeat { seat: other } = other;
        self.table.shared.join_seat::<Absorb>(&mut seat.seat, other);
    }
}
