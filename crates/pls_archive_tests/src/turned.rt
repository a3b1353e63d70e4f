//! An archive by turns, of two callers and of four.
ghost use Rattle.std.specs.Prelude.{◌≡◌, ◌≤◌, ◌<◌, All, IfOk, IfSome};
ghost use Rattle.pls_turn.specs.Passes.{terms_of, IsPassOf};

use pls_archive::{Call, Entry, Plain, Reply, Shared, Single, Taken};
use pls_samples::{point, value};
use pls_turn::{TurnPass, Turned};
use std::alloc::{AllocError, Global};
use std::cmp::Ordering;
use std::sync::Wait;
use std::test::*;
use std::thread;
use std::thread::Threads;

// An archive with so many passes.
fn start(alloc: Global, passes: u32) -> Result<(Turned<Plain>, Vec<TurnPass<Plain>>), AllocError>
    requires { (1 ≤ passes) × (passes ≤ 64) }
    ensures passes { IfOk result (λ t. All (IsPassOf t.0) t.1.items) }
    ensures parts { IfOk result (λ t. (terms_of t.0).single.value.objectives ≡ 2) }
{
    let (archive, passes) = Turned::start(alloc, Plain::new(alloc, 2), passes)?;
    Ok((archive, passes))
}

// Takes the last of the passes.
fn take_last(archive: &Turned<Plain>, passes: &mut Vec<TurnPass<Plain>>) -> Option<TurnPass<Plain>>
    requires { All (IsPassOf archive.now) passes.old.items }
    ensures others { All (IsPassOf archive.now) passes.new.items }
    ensures pass { IfSome result (IsPassOf archive.now) }
{
    let _ = archive;
    passes.pop()
}

// Submits every second point of a front of 101 from the first on.
fn submit_half<R: Wait>(
    rt: &R,
    archive: &Turned<Plain>,
    mut pass: TurnPass<Plain>,
    first: u8,
) -> TurnPass<Plain>
    requires pass { IsPassOf archive.now pass }
    requires parts { (terms_of archive.now).single.value.objectives ≡ 2 }
    requires first { first < 2 }
    ensures { IsPassOf archive.now result }
{
    for k in 0..51u8 {
        let i = first + 2 * k;
        if i <= 100 {
            let _ = archive.update(rt, &mut pass, point(i, 100 - i, 1));
        }
    }
    pass
}

fn submit_by_two<R: Threads + Wait + Sync>(
    rt: &R,
    archive: &Turned<Plain>,
    a: TurnPass<Plain>,
    b: TurnPass<Plain>,
) -> TurnPass<Plain>
    requires passes { IsPassOf archive.now a × IsPassOf archive.now b }
    requires parts { (terms_of archive.now).single.value.objectives ≡ 2 }
    ensures { IsPassOf archive.now result }
{
    let (mut a, b) = thread::join(
        rt,
        move ||
            requires { IsPassOf archive.now a × ((terms_of archive.now).single.value.objectives ≡ 2) }
            ensures { IsPassOf archive.entry.now result }
        { submit_half(rt, archive, a, 0) },
        move ||
            requires { IsPassOf archive.now b × ((terms_of archive.now).single.value.objectives ≡ 2) }
            ensures { IsPassOf archive.entry.now result }
        { submit_half(rt, archive, b, 1) },
    );
    archive.join(&mut a, b);
    a
}

#[test]
fn two_threads_share_one_archive(rt: HostRuntime) -> Result<(), Fail> {
    let (archive, mut passes) = start(rt.alloc(), 2)?;
    let b = take_last(&archive, &mut passes).expect(&rt, "two passes");
    let a = take_last(&archive, &mut passes).expect(&rt, "two passes");
    let mut pass = submit_by_two(&rt, &archive, a, b);
    let (front, stamp) = archive.snapshot(&rt, rt.alloc(), &mut pass)?;
    assert_eq!(&rt; stamp, 101);
    assert_eq!(&rt; front.as_slice().len(), 101);
    for i in 0..101u8 {
        let member = &front.as_slice()[i as usize];
        assert_eq!(&rt; *member, point(i, 100 - i, 1), "member {i}");
    }
    Ok(())
}

const CALLS: u32 = 2_000;

// The next of some numbers without order.
fn next(state: &mut u64) -> u64 {
    let mut x = *state;
    x ^= x << 13;
    x ^= x >> 7;
    x ^= x << 17;
    *state = x;
    x
}

// Makes a generated call: its entry, or none for want of memory.
fn make_call<R: Wait>(
    rt: &R,
    alloc: Global,
    archive: &Turned<Plain>,
    pass: &mut TurnPass<Plain>,
    caller: u32,
    number: u64,
) -> Option<Entry>
    requires pass { IsPassOf archive.now pass.old }
    requires parts { (terms_of archive.now).single.value.objectives ≡ 2 }
    ensures { IsPassOf archive.now pass.new }
{
    let a = (number / 16 % 64) as u8;
    let b = 63 - a + (number / 1024 % 16) as u8;
    let items = 1 + (number / 65_536 % 3) as u16;
    let (call, reply, stamp) = match number % 16 {
        0 => {
            let (points, stamp) = archive.snapshot(rt, alloc, pass).ok()?;
            (Call::Snapshot, Reply::Points(points), stamp)
        }
        1..=3 => {
            let (yes, stamp) = archive.covered(rt, pass, value(a, b));
            (Call::Covered(value(a, b)), yes_or_no(yes), stamp)
        }
        4..=6 => {
            let (yes, stamp) = archive.member(rt, pass, value(a, b));
            (Call::Member(value(a, b)), yes_or_no(yes), stamp)
        }
        _ => {
            let point = &point(a, b, items);
            let (taken, stamp) = archive.update(rt, pass, *point).ok()?;
            (Call::Update(*point), reply_of(taken), stamp)
        }
    };
    Some(Entry {
        caller,
        stamp,
        call,
        reply,
    })
}

fn yes_or_no(yes: bool) -> Reply {
    if yes { Reply::Yes } else { Reply::No }
}

fn reply_of(taken: Taken) -> Reply {
    match taken {
        Taken::Added { removed } => Reply::Added { removed },
        Taken::Refused => Reply::Refused,
    }
}

// Makes generated calls: the pass, and their entries.
fn make_calls<R: Wait>(
    rt: &R,
    alloc: Global,
    archive: &Turned<Plain>,
    mut pass: TurnPass<Plain>,
    caller: u32,
) -> (TurnPass<Plain>, Vec<Entry>)
    requires pass { IsPassOf archive.now pass }
    requires parts { (terms_of archive.now).single.value.objectives ≡ 2 }
    requires caller { caller < 4 }
    ensures { IsPassOf archive.now result.0 }
{
    let mut entries = Vec::new(alloc);
    let mut state = 88_172_645_463_325_252 + caller as u64;
    for _ in 0..CALLS {
        let number = next(&mut state);
        let Some(entry) = make_call(rt, alloc, archive, &mut pass, caller, number) else {
            break;
        };
        if entries.push(entry).is_err() {
            break;
        }
    }
    (pass, entries)
}

type Called = (TurnPass<Plain>, Vec<Entry>);

// Two callers make calls at once; then their passes are joined.
fn call_by_two<R: Threads + Wait + Sync>(
    rt: &R,
    alloc: Global,
    archive: &Turned<Plain>,
    a: TurnPass<Plain>,
    b: TurnPass<Plain>,
    caller: u32,
) -> (Called, Vec<Entry>)
    requires passes { IsPassOf archive.now a × IsPassOf archive.now b }
    requires parts { (terms_of archive.now).single.value.objectives ≡ 2 }
    requires caller { caller < 3 }
    ensures { IsPassOf archive.now result.0.0 }
{
    let ((mut a, by_a), (b, by_b)) = thread::join(
        rt,
        move ||
            requires { IsPassOf archive.now a × ((terms_of archive.now).single.value.objectives ≡ 2) × (caller < 3) }
            ensures { IsPassOf archive.entry.now result.0 }
        { make_calls(rt, alloc, archive, a, caller) },
        move ||
            requires { IsPassOf archive.now b × ((terms_of archive.now).single.value.objectives ≡ 2) × (caller < 3) }
            ensures { IsPassOf archive.entry.now result.0 }
        { make_calls(rt, alloc, archive, b, caller + 1) },
    );
    archive.join(&mut a, b);
    ((a, by_a), by_b)
}

// Four callers make calls at once: the pass, and the entries in order of caller.
fn call_by_four<R: Threads + Wait + Sync>(
    rt: &R,
    alloc: Global,
    archive: &Turned<Plain>,
    left: (TurnPass<Plain>, TurnPass<Plain>),
    right: (TurnPass<Plain>, TurnPass<Plain>),
) -> Result<Called, AllocError>
    requires left { IsPassOf archive.now left.0 × IsPassOf archive.now left.1 }
    requires right { IsPassOf archive.now right.0 × IsPassOf archive.now right.1 }
    requires parts { (terms_of archive.now).single.value.objectives ≡ 2 }
{
    let (a, b) = left;
    let (c, d) = right;
    let (((mut ab, mut entries), mut by_b), ((cd, mut by_c), mut by_d)) = thread::join(
        rt,
        move ||
            requires { IsPassOf archive.now a × IsPassOf archive.now b × ((terms_of archive.now).single.value.objectives ≡ 2) }
            ensures { IsPassOf archive.entry.now result.0.0 }
        { call_by_two(rt, alloc, archive, a, b, 0) },
        move ||
            requires { IsPassOf archive.now c × IsPassOf archive.now d × ((terms_of archive.now).single.value.objectives ≡ 2) }
            ensures { IsPassOf archive.entry.now result.0.0 }
        { call_by_two(rt, alloc, archive, c, d, 2) },
    );
    archive.join(&mut ab, cd);
    entries.append(&mut by_b)?;
    entries.append(&mut by_c)?;
    entries.append(&mut by_d)?;
    Ok((ab, entries))
}

// The order of entries in the serialization, beside that of their callers: by stamp, an accepting entry before the others.
fn order(a: &Entry, b: &Entry) -> Ordering {
    let by_stamp = a.stamp.cmp(&b.stamp);
    if by_stamp != Ordering::Equal {
        return by_stamp;
    }
    is_accepting(b).cmp(&is_accepting(a))
}

fn is_accepting(entry: &Entry) -> bool {
    matches!(entry.reply, Reply::Added { .. })
}

fn are_equal(a: &Reply, b: &Reply) -> bool {
    match (a, b) {
        (Reply::Added { removed: m }, Reply::Added { removed: n }) => m == n,
        (Reply::Refused, Reply::Refused) => true,
        (Reply::Yes, Reply::Yes) => true,
        (Reply::No, Reply::No) => true,
        (Reply::Points(m), Reply::Points(n)) => m.as_slice() == n.as_slice(),
        _ => false,
    }
}

// Whether an archive of one caller replies as the entry says.
fn replies_alike(alloc: Global, plain: &mut Plain, entry: &Entry) -> Result<bool, AllocError>
    requires { plain.old.objectives ≡ 2 }
    ensures { plain.new.objectives ≡ 2 }
{
    let reply = match entry.call {
        Call::Update(point) => {
            let point = &point;
            if point.value.len() != 2 {
                return Ok(false);
            }
            reply_of(plain.update(*point)?)
        }
        Call::Covered(value) => yes_or_no(value.len() == 2 && plain.covered(&value)),
        Call::Member(value) => yes_or_no(value.len() == 2 && plain.member(&value)),
        Call::Snapshot => Reply::Points(plain.snapshot(alloc)?),
    };
    Ok(are_equal(&entry.reply, &reply))
}

#[test]
fn four_threads_make_one_legal_history(rt: HostRuntime) -> Result<(), Fail> {
    let alloc = rt.alloc();
    let (archive, mut passes) = start(alloc, 4)?;
    let d = take_last(&archive, &mut passes).expect(&rt, "four passes");
    let c = take_last(&archive, &mut passes).expect(&rt, "four passes");
    let b = take_last(&archive, &mut passes).expect(&rt, "four passes");
    let a = take_last(&archive, &mut passes).expect(&rt, "four passes");
    let (_pass, mut entries) = call_by_four(&rt, alloc, &archive, (a, b), (c, d))?;
    assert_eq!(&rt; entries.len(), 4 * CALLS as usize);
    entries.sort_by(|a, b| order(a, b))?;
    let mut plain = Plain::new(alloc, 2);
    let mut accepting = 0;
    for entry in &entries {
        if is_accepting(entry) {
            accepting += 1;
        }
        assert_eq!(&rt; entry.stamp, accepting);
        assert!(&rt; replies_alike(alloc, &mut plain, entry)?, "{entry:?}");
    }
    assert!(&rt; accepting > 20);
    Ok(())
}
