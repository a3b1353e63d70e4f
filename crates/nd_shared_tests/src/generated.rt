//! Calls that words choose, at a shared tree and at the plain archive.
ghost use Rattle.std.specs.Prelude.{◌≡◌, length};
ghost use Rattle.nd_shared.specs.Views.{IsReady};

use nd_shared::{Tree, TreePass, TryRefusal};
use pls_archive::{Plain, Point, Shared, Single, Taken};
use pls_vectors::{Sol, Vector};
use std::alloc::{AllocError, Global};
use std::cmp::Ordering;
use std::process::Abort;
use std::sync::Wait;

// What a call is answered.
#[derive(Clone, Copy, Debug, PartialEq, Eq, Drop)]
pub(super) enum Answer {
    Taken(Taken),
    Says(bool),
}

// The call that the word chooses was answered so, with this stamp.
#[derive(Clone, Copy, Debug, Drop)]
pub(super) struct Answered {
    word: u64,
    stamp: u64,
    answer: Answer,
}

// The word with another level, which its lowest bits are.
pub(super) fn at_level(word: u64, level: u16) -> u64 {
    word & !0xffff | u64::from(level)
}

// A point of 3 parts that the word chooses, with a choice of nothing among 1 to 256 items: of 256 values whose sum is 32, which are
// in no order, or below one of them; and each part is greater by the level.
fn point_of(rt: &impl Abort, word: u64) -> Point
    ensures { length result.value ≡ 3 }
{
    let level = (word % 65_536) as i64;
    let a = ((word >> 24) % 16) as i64;
    let b = ((word >> 32) % 16) as i64;
    let less = ((word >> 40) % 6) as i64;
    let items = ((word >> 46) % 256) as u16 + 1;
    Point {
        value: Vector::new(&[a + level, b + level, 32 - a - b - less + level]).expect(
            rt,
            "parts in range",
        ),
        sol: Sol::bits(items),
    }
}

fn is_update(word: u64) -> bool {
    (word >> 62) % 2 == 0
}

// Asks the tree what the word chooses of its value.
fn ask(rt: &impl Abort, tree: &Tree, pass: &mut TreePass, word: u64) -> Answered
    requires ready { IsReady tree.now.rows pass.old }
    requires parts { tree.now.rows.shape ≡ 3 }
    ensures ready { IsReady tree.now.rows pass.new }
{
    let value = point_of(rt, word).value;
    let (yes, stamp) = if word >> 63 == 0 {
        tree.covered_now(pass, value)
    } else {
        tree.member_now(pass, value)
    };
    Answered {
        word,
        stamp,
        answer: Answer::Says(yes),
    }
}

// Makes the call that the word chooses; an update is tried once.
pub(super) fn try_call(
    rt: &impl Abort,
    tree: &Tree,
    pass: &mut TreePass,
    word: u64,
) -> Result<Answered, TryRefusal>
    requires ready { IsReady tree.now.rows pass.old }
    requires parts { tree.now.rows.shape ≡ 3 }
    ensures ready { IsReady tree.now.rows pass.new }
{
    if !is_update(word) {
        return Ok(ask(rt, tree, pass, word));
    }
    let (taken, stamp) = tree.try_update(pass, point_of(rt, word))?;
    Ok(Answered {
        word,
        stamp,
        answer: Answer::Taken(taken),
    })
}

// Makes the call that the word chooses, or none where an update is refused for want of room.
pub(super) fn call<R: Abort + Wait>(
    rt: &R,
    tree: &Tree,
    pass: &mut TreePass,
    word: u64,
) -> Option<Answered>
    requires ready { IsReady tree.now.rows pass.old }
    requires parts { tree.now.rows.shape ≡ 3 }
    ensures ready { IsReady tree.now.rows pass.new }
{
    if !is_update(word) {
        return Some(ask(rt, tree, pass, word));
    }
    let (taken, stamp) = tree.update(rt, pass, point_of(rt, word)).ok()?;
    Some(Answered {
        word,
        stamp,
        answer: Answer::Taken(taken),
    })
}

// What the plain archive answers to the call that the word chooses.
fn plain_answer(rt: &impl Abort, plain: &mut Plain, word: u64) -> Result<Answer, AllocError>
    requires parts { plain.old.objectives ≡ 3 }
    ensures parts { plain.new.objectives ≡ 3 }
{
    let point = &point_of(rt, word);
    if is_update(word) {
        return Ok(Answer::Taken(plain.update(*point)?));
    }
    Ok(Answer::Says(if word >> 63 == 0 {
        plain.covered(&point.value)
    } else {
        plain.member(&point.value)
    }))
}

// Whether the plain archive answers otherwise.
pub(super) fn differs(
    rt: &impl Abort,
    plain: &mut Plain,
    call: &Answered,
) -> Result<bool, AllocError>
    requires parts { plain.old.objectives ≡ 3 }
    ensures parts { plain.new.objectives ≡ 3 }
{
    Ok(plain_answer(rt, plain, call.word)? != call.answer)
}

fn is_accepting(call: &Answered) -> bool {
    matches!(call.answer, Answer::Taken(Taken::Added { .. }))
}

// The order in which they took effect: by stamp, an accepting one before the others.
fn order(a: &Answered, b: &Answered) -> Ordering {
    let by_stamp = a.stamp.cmp(&b.stamp);
    if by_stamp != Ordering::Equal {
        return by_stamp;
    }
    is_accepting(b).cmp(&is_accepting(a))
}

// Makes the calls at the plain archive in the order in which they took effect: how many were accepted, and how many have another
// answer there, or a stamp that is not how many were accepted.
pub(super) fn replay(
    rt: &impl Abort,
    plain: &mut Plain,
    calls: &mut Vec<Answered>,
) -> Result<(u64, u64), AllocError>
    requires parts { plain.old.objectives ≡ 3 }
    ensures parts { plain.new.objectives ≡ 3 }
{
    calls.sort_by(|a, b| order(a, b))?;
    let mut accepted = 0u64;
    let mut differences = 0u64;
    for call in &*calls {
        accepted = accepted.saturating_add(u64::from(is_accepting(call)));
        let differs = call.stamp != accepted || differs(rt, plain, call)?;
        differences = differences.saturating_add(u64::from(differs));
    }
    Ok((accepted, differences))
}

// Whether the members differ.
pub(super) fn snapshot_differs(
    alloc: Global,
    tree: &Tree,
    pass: &mut TreePass,
    plain: &Plain,
) -> Result<bool, AllocError>
    requires ready { IsReady tree.now.rows pass.old }
    ensures ready { IsReady tree.now.rows pass.new }
{
    let (by_tree, _) = tree.snapshot_now(alloc, pass)?;
    let by_plain = plain.snapshot(alloc)?;
    Ok(by_tree.as_slice() != by_plain.as_slice())
}
