//! One row by several passes, in turn and in two threads.

ghost use Rattle.std.specs.Prelude.{◌<◌, ◌≤◌, IfOk, IfSome, length};
ghost use Rattle.era_rows.specs.Passes.{seen_of, IsPassOf};
ghost use Rattle.era_one_row.specs.Ready.{IsAtRest, IsIdle};

use crate::rows::give_back_fresh;
use era_one_row::{OneRow, Replaced, finish, join, open, prepare, read_current, replace};
use era_rows::{MEMORY_PLACES, Nothing, Pass, PublishRefusal, Rows};
use std::alloc::{AllocError, Global};
use std::thread;
use std::thread::Threads;

// Rows with one pass.
fn start_one(alloc: Global) -> Result<(Rows<OneRow>, Pass<OneRow>), AllocError>
    ensures { IfOk result (λ t. IsIdle t.0 t.1) }
{
    let (rows, mut passes): (Rows<OneRow>, Vec<Pass<OneRow>>) = Rows::start(alloc, 0, 64, 1)?;
    let pass = passes.remove(0);
    Ok((rows, pass))
}

// Rows with two passes.
fn start_two(alloc: Global) -> Result<(Rows<OneRow>, Pass<OneRow>, Pass<OneRow>), AllocError>
    ensures { IfOk result (λ t. IsIdle t.0 t.1 × IsIdle t.0 t.2) }
{
    let (rows, mut passes): (Rows<OneRow>, Vec<Pass<OneRow>>) = Rows::start(alloc, 0, 64, 2)?;
    let b = passes.remove(1);
    let a = passes.remove(0);
    Ok((rows, a, b))
}

// Where a search finds no row, the row that was taken last is given back: that row, and what a search answers then.
fn give_last_back(rows: &Rows<OneRow>, pass: &mut Pass<OneRow>) -> Option<(u32, Option<u32>)>
    requires { IsPassOf rows.now pass.old }
{
    if rows.take(pass).is_some() {
        return None;
    }
    let last = rows.fresh_row(pass, rows.fresh(pass).checked_sub(1)?);
    give_back_fresh(rows, pass, last);
    Some((last, rows.take(pass)))
}

// Takes so many rows: whether each is another one, and none is row 0.
fn take_many(
    alloc: Global,
    rows: &Rows<OneRow>,
    pass: &mut Pass<OneRow>,
    count: u32,
) -> Result<bool, AllocError>
    requires { IsPassOf rows.now pass.old }
    ensures { IsPassOf rows.now pass.new }
{
    let mut seen = Vec::from_elem(alloc, false, 64)?;
    for _ in 0..count {
        let Some(row) = rows.take(pass) else {
            return Ok(false);
        };
        if row == 0 || row >= 64 || seen[row as usize] {
            return Ok(false);
        }
        seen[row as usize] = true;
    }
    Ok(true)
}

#[test]
fn takes_each_row_once(rt: HostRuntime) -> Result<(), AllocError> {
    let (rows, mut a) = start_one(rt.alloc())?;
    let pass = &mut a;
    assert!(&rt;
        take_many(rt.alloc(), &rows, pass, 63)? && rows.fresh(pass) == 63,
        "63 takes give 63 rows, each another one, and none is row 0"
    );
    let (last, again) = give_last_back(&rows, pass).expect(&rt, "the 64th take finds no row");
    assert!(&rt;
        again == Some(last),
        "the row that was given back is taken again"
    );
    Ok(())
}

// What the steps of two passes over version 0 answer: two publications, and after each how many rows are freed, and how many
// wait.
#[derive(Clone, Copy, Drop)]
struct Turns {
    first: Result<u64, PublishRefusal>,
    freed: u32,
    waits: u32,
    second: Result<u64, PublishRefusal>,
    freed_then: u32,
    waits_then: u32,
}

// Both passes pin version 0; then one publishes, and then the other.
fn beaten_in_turn(rows: &Rows<OneRow>, a: &mut Pass<OneRow>, b: &mut Pass<OneRow>) -> Option<Turns>
    requires { IsAtRest rows.now a.old × IsAtRest rows.now b.old }
{
    let pin_a = open(rows, a);
    let pin_b = open(rows, b);
    let row_b = prepare(rows, b, pin_b, 1)?;
    let first = finish(rows, b, pin_b, row_b);
    let freed = rows.tidy(b);
    let waits = rows.waiting(b);
    let row_a = prepare(rows, a, pin_a, 1)?;
    let second = finish(rows, a, pin_a, row_a);
    let freed_then = rows.tidy(b);
    let waits_then = rows.waiting(b);
    Some(Turns {
        first,
        freed,
        waits,
        second,
        freed_then,
        waits_then,
    })
}

#[test]
fn frees_a_row_when_nobody_reads_it(rt: HostRuntime) -> Result<(), AllocError> {
    let (rows, mut a, mut b) = start_two(rt.alloc())?;
    let turns = beaten_in_turn(&rows, &mut a, &mut b).expect(&rt, "rows are free");
    assert!(&rt; turns.first == Ok(1), "the first publication is version 1");
    assert!(&rt;
        turns.freed == 0 && turns.waits == 1,
        "the other pass still reads row 0"
    );
    assert!(&rt;
        turns.second == Err(PublishRefusal::Beaten(1)),
        "the other one is beaten"
    );
    assert!(&rt;
        turns.freed_then == 1 && turns.waits_then == 0,
        "then row 0 is free"
    );
    Ok(())
}

// How many replacements are done before no row is free, 100 at most.
fn replace_until_full(rows: &Rows<OneRow>, pass: &mut Pass<OneRow>) -> u32
    requires { IsAtRest rows.now pass.old }
    ensures { IsAtRest rows.now pass.new }
{
    for done in 0..100 {
        if let Replaced::Full = replace(rows, pass) {
            return done;
        }
    }
    100
}

// One pass reads version 0 while the other replaces the row until no row is free; then the first one leaves: how many
// replacements were done, and what the next one answers.
fn fill_while_read(
    rows: &Rows<OneRow>,
    a: &mut Pass<OneRow>,
    b: &mut Pass<OneRow>,
) -> (u32, Replaced)
    requires { IsAtRest rows.now a.old × IsAtRest rows.now b.old }
{
    open(rows, a);
    let done = replace_until_full(rows, b);
    rows.unpin(a, &Nothing);
    (done, replace(rows, b))
}

#[test]
fn is_full_while_a_version_is_read(rt: HostRuntime) -> Result<(), AllocError> {
    let (rows, mut a, mut b) = start_two(rt.alloc())?;
    let (done, next) = fill_while_read(&rows, &mut a, &mut b);
    assert!(&rt; done == 63, "each row but the current one is retired");
    assert!(&rt;
        next == Replaced::Done(64),
        "and is free once no pass reads it"
    );
    Ok(())
}

// One pass reads version 0 while the other replaces the row three times; once it has left, what a tidy frees, and the rows that
// are taken next.
fn take_what_is_freed(
    rows: &Rows<OneRow>,
    a: &mut Pass<OneRow>,
    b: &mut Pass<OneRow>,
) -> Option<(u32, [u32; 4])>
    requires { IsAtRest rows.now a.old × IsAtRest rows.now b.old }
{
    open(rows, a);
    replace(rows, b);
    replace(rows, b);
    replace(rows, b);
    rows.unpin(a, &Nothing);
    let freed = rows.tidy(b);
    Some((
        freed,
        [rows.take(b)?, rows.take(b)?, rows.take(b)?, rows.take(b)?],
    ))
}

#[test]
fn takes_first_what_was_freed_last(rt: HostRuntime) -> Result<(), AllocError> {
    let (rows, mut a, mut b) = start_two(rt.alloc())?;
    assert!(&rt;
        take_what_is_freed(&rows, &mut a, &mut b) == Some((3, [33, 32, 0, 35])),
        "the rows 0, 32 and 33 are free once nobody reads version 0, and row 34 is current"
    );
    Ok(())
}

// The version that a pass remembers at a place, which is one that it has seen.
fn remembered_version(pass: &Pass<OneRow>, place: usize) -> Option<u64>
    requires { place < MEMORY_PLACES }
    ensures { IfSome result (λ version. version ≤ length (seen_of pass.now)) }
{
    let words = pass.remembered(place)?;
    Some(words[0])
}

// Remembers at place 0 the version that is current.
fn remember_version(rows: &Rows<OneRow>, pass: &mut Pass<OneRow>) -> u64
    requires { IsIdle rows.now pass.old }
    ensures { IsIdle rows.now pass.new }
{
    let (version, _) = open(rows, pass);
    pass.remember(0, [version, 0, 0, 0, 0, 0]);
    rows.unpin(pass, &Nothing);
    version
}

// One pass loses a publication to the other.
fn lose_to(rows: &Rows<OneRow>, a: &mut Pass<OneRow>, b: &mut Pass<OneRow>) -> Option<bool>
    requires { IsIdle rows.now a.old × IsIdle rows.now b.old }
    ensures { IfSome result (λ _. IsIdle rows.now a.new × IsIdle rows.now b.new) }
{
    let pin = open(rows, a);
    replace(rows, b);
    let row = prepare(rows, a, pin, pin.0 + 1)?;
    Some(finish(rows, a, pin, row).is_err())
}

// A pass remembers a version, publishes, loses a publication to another, which then remembers a later version, and takes that
// one over: the first version, what it remembers after each publication, and whether it remembers any after it took over.
fn remember_and_join(
    rows: &Rows<OneRow>,
    mut a: Pass<OneRow>,
    mut b: Pass<OneRow>,
) -> Option<([u64; 3], bool)>
    requires { IsIdle rows.now a × IsIdle rows.now b }
{
    let version = remember_version(rows, &mut a);
    replace(rows, &mut a);
    let published = remembered_version(&a, 0)?;
    if !lose_to(rows, &mut a, &mut b)? {
        return None;
    }
    let lost = remembered_version(&a, 0)?;
    remember_version(rows, &mut b);
    join(rows, &mut a, b);
    Some((
        [version, published, lost],
        remembered_version(&a, 0).is_some(),
    ))
}

#[test]
fn remembers_a_version(rt: HostRuntime) -> Result<(), AllocError> {
    let (rows, mut a, b) = start_two(rt.alloc())?;
    assert!(&rt;
        remembered_version(&a, 0) == None,
        "a new pass remembers nothing"
    );
    replace(&rows, &mut a);
    assert!(&rt;
        remember_and_join(&rows, a, b) == Some(([1, 1, 1], false)),
        "version 1 is remembered until the pass takes over another"
    );
    Ok(())
}

// Replaces the row so many times, and reads it each time before: how many replacements were done, and whether each word that
// was read was the number of its version.
fn replace_and_read(rows: &Rows<OneRow>, pass: &mut Pass<OneRow>, count: u32) -> (u32, bool)
    requires { IsIdle rows.now pass.old }
    ensures { IsIdle rows.now pass.new }
{
    let mut done = 0;
    let mut right = true;
    for _ in 0..count {
        let (version, word) = read_current(rows, pass, 1);
        right = right && word == version;
        if let Replaced::Done(_) = replace(rows, pass) {
            done += 1;
        }
    }
    (done, right)
}

fn replace_in_thread(
    rows: &Rows<OneRow>,
    mut pass: Pass<OneRow>,
    count: u32,
) -> (Pass<OneRow>, (u32, bool))
    requires { IsIdle rows.now pass }
    ensures { IsIdle rows.now result.0 }
{
    let seen = replace_and_read(rows, &mut pass, count);
    (pass, seen)
}

// Two threads replace the row so many times each; then the passes are joined, and one reads.
fn replace_by_two<R: Threads + Sync>(
    rt: &R,
    rows: &Rows<OneRow>,
    a: Pass<OneRow>,
    b: Pass<OneRow>,
    count: u32,
) -> ((u32, bool), (u32, bool), (u64, u64))
    requires { IsIdle rows.now a × IsIdle rows.now b }
{
    let ((mut a, seen_a), (b, seen_b)) = thread::join(
        rt,
        move ||
            requires { IsIdle rows.now a }
            ensures { IsIdle rows.entry.now result.0 }
        { replace_in_thread(rows, a, count) },
        move ||
            requires { IsIdle rows.now b }
            ensures { IsIdle rows.entry.now result.0 }
        { replace_in_thread(rows, b, count) },
    );
    join(rows, &mut a, b);
    (seen_a, seen_b, read_current(rows, &mut a, 1))
}

#[test]
fn two_threads_publish_and_read(rt: HostRuntime) -> Result<(), AllocError> {
    let (rows, a, b) = start_two(rt.alloc())?;
    let (first, second, (version, word)) = replace_by_two(&rt, &rows, a, b, 10_000);
    assert!(&rt;
        first.1 && second.1,
        "each word is the number of its version"
    );
    assert!(&rt;
        u64::from(first.0) + u64::from(second.0) == version,
        "each replacement made a version"
    );
    assert!(&rt; version > 0, "a replacement was done");
    assert!(&rt;
        word == version,
        "the last word is the number of the last version"
    );
    Ok(())
}
