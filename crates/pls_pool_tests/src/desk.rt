//! The desk: one seat, and two threads.

ghost use Rattle.std.specs.Prelude.{◌≡◌, ◌≤◌, ◌^◌, IfOk};
ghost use Rattle.pls_pool.specs.DeskSeats.{tally_of, IsDeskSeatOf};

use pls_pool::{Cause, Desk, DeskSeat, Draw};
use std::alloc::{AllocError, Global};
use std::test::*;
use std::thread;
use std::thread::Threads;

// A desk with one seat that has drawn nothing.
fn start_one(alloc: Global, moves: u64) -> Result<(Desk, DeskSeat), AllocError>
    requires { moves ≤ 10 ^ 9 }
    ensures { IfOk result (λ t. IsDeskSeatOf t.0 t.1 × ((tally_of t.1).draws ≡ (tally_of t.1).goes)) }
{
    let (desk, mut seats) = Desk::start(alloc, moves, 1)?;
    let seat = seats.remove(0);
    Ok((desk, seat))
}

// A desk with two seats that have drawn nothing.
fn start_two(alloc: Global, moves: u64) -> Result<(Desk, DeskSeat, DeskSeat), AllocError>
    requires { moves ≤ 10 ^ 9 }
    ensures first { IfOk result (λ t. IsDeskSeatOf t.0 t.1 × ((tally_of t.1).draws ≡ (tally_of t.1).goes)) }
    ensures second { IfOk result (λ t. IsDeskSeatOf t.0 t.2 × ((tally_of t.2).draws ≡ (tally_of t.2).goes)) }
{
    let (desk, mut seats) = Desk::start(alloc, moves, 2)?;
    let second = seats.remove(1);
    let first = seats.remove(0);
    Ok((desk, first, second))
}

// Draws until no move is left, so many times at most: how many moves were given.
fn draw_all(desk: &Desk, seat: &mut DeskSeat, most: u32) -> u32
    requires seat { IsDeskSeatOf desk.now seat.old }
    requires fresh { (tally_of seat.old).draws ≡ (tally_of seat.old).goes }
    ensures { IsDeskSeatOf desk.now seat.new }
{
    for given in 0..most {
        match desk.draw(seat) {
            Draw::Go => {}
            Draw::Spent => return given,
        }
    }
    most
}

#[test]
fn gives_two_moves(rt: HostRuntime) -> Result<(), Fail> {
    let (desk, mut seat) = start_one(rt.alloc(), 2)?;
    assert_eq!(&rt; draw_all(&desk, &mut seat, 4), 2);
    Ok(())
}

#[test]
fn is_quiet_where_all_is_done(rt: HostRuntime) -> Result<(), Fail> {
    let (desk, mut seat) = start_one(rt.alloc(), 2)?;
    desk.opened(&mut seat);
    desk.opened(&mut seat);
    desk.done(&mut seat);
    assert_eq!(&rt; desk.quiet(&mut seat), false);
    desk.done(&mut seat);
    assert_eq!(&rt; desk.quiet(&mut seat), true);
    assert_eq!(&rt; desk.halted(&mut seat), false);
    desk.halt(&mut seat, Cause::Full);
    assert_eq!(&rt; desk.halted(&mut seat), true);
    Ok(())
}

fn draw_in_thread(desk: &Desk, mut seat: DeskSeat, most: u32) -> (DeskSeat, u32)
    requires seat { IsDeskSeatOf desk.now seat }
    requires fresh { (tally_of seat).draws ≡ (tally_of seat).goes }
    ensures { IsDeskSeatOf desk.now result.0 }
{
    let given = draw_all(desk, &mut seat, most);
    (seat, given)
}

// Two threads draw until no move is left: how many moves each was given.
fn draw_by_two<R: Threads + Sync>(
    rt: &R,
    desk: &Desk,
    a: DeskSeat,
    b: DeskSeat,
    most: u32,
) -> (u32, u32)
    requires seats { IsDeskSeatOf desk.now a × IsDeskSeatOf desk.now b }
    requires fresh { ((tally_of a).draws ≡ (tally_of a).goes) × ((tally_of b).draws ≡ (tally_of b).goes) }
{
    let ((mut a, from_a), (b, from_b)) = thread::join(
        rt,
        move ||
            requires { IsDeskSeatOf desk.now a × ((tally_of a).draws ≡ (tally_of a).goes) }
            ensures { IsDeskSeatOf desk.entry.now result.0 }
        { draw_in_thread(desk, a, most) },
        move ||
            requires { IsDeskSeatOf desk.now b × ((tally_of b).draws ≡ (tally_of b).goes) }
            ensures { IsDeskSeatOf desk.entry.now result.0 }
        { draw_in_thread(desk, b, most) },
    );
    desk.join(&mut a, b);
    (from_a, from_b)
}

#[test]
fn two_threads_draw_each_move_once(rt: HostRuntime) -> Result<(), Fail> {
    let (desk, a, b) = start_two(rt.alloc(), 10_000)?;
    let (from_a, from_b) = draw_by_two(&rt, &desk, a, b, 20_000);
    assert_eq!(&rt; u64::from(from_a) + u64::from(from_b), 10_000);
    Ok(())
}
