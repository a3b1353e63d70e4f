//! Two callers on two threads, at a shared tree in few rows.
ghost use Rattle.std.specs.Prelude.{◌≡◌, ◌<◌};
ghost use Rattle.nd_shared.specs.Views.{IsReady};

use crate::generated::{Answered, at_level, replay, snapshot_differs, try_call};
use crate::starts::{start_many, take_last};
use nd_shared::{Tree, TreePass, TryRefusal};
use pls_archive::{Plain, Shared};
use pls_samples::next_word;
use std::alloc::Global;
use std::process::Abort;
use std::test::*;
use std::thread;
use std::thread::Threads;

// How many calls each caller makes at one tree, and how many trees are tried at most.
const CALLS: u32 = 1_000;

const TREES: u32 = 200;

// How often no row was free, another update was published meanwhile, and fewer rows waited after a call than before; and at how many
// trees more points were added than there are rows.
#[derive(Clone, Copy, Debug, Drop)]
struct Met {
    full: u32,
    beaten: u32,
    freed: u32,
    again: u32,
}

impl Met {
    fn nothing() -> Met {
        Met {
            full: 0,
            beaten: 0,
            freed: 0,
            again: 0,
        }
    }

    fn has_all(&self) -> bool {
        self.full > 0 && self.beaten > 0 && self.freed > 0 && self.again > 0
    }

    fn with(&self, other: &Met) -> Met {
        Met {
            full: self.full.saturating_add(other.full),
            beaten: self.beaten.saturating_add(other.beaten),
            freed: self.freed.saturating_add(other.freed),
            again: self.again.saturating_add(other.again),
        }
    }
}

// What the calls of one caller met, and those that were answered.
#[derive(Debug, Drop)]
struct Made {
    met: Met,
    calls: Vec<Answered>,
}

// Makes the call that the word chooses: whether there was memory to note it.
fn make_call(rt: &impl Abort, tree: &Tree, pass: &mut TreePass, word: u64, made: &mut Made) -> bool
    requires ready { IsReady tree.now.rows pass.old }
    requires parts { tree.now.rows.shape ≡ 3 }
    ensures ready { IsReady tree.now.rows pass.new }
{
    let waited = tree.rows().waiting(pass);
    let answer = try_call(rt, tree, pass, word);
    let freed = tree.rows().waiting(pass) < waited;
    let full = answer.is_err_and(|e| e == TryRefusal::Full);
    made.met = made.met.with(&Met {
        full: u32::from(full),
        beaten: u32::from(answer.is_err() && !full),
        freed: u32::from(freed),
        again: 0,
    });
    match answer {
        Ok(call) => made.calls.push(call).is_ok(),
        Err(_) => true,
    }
}

// Makes calls that words from this one on choose, whose points rise by a level after each so many.
fn make_calls(
    rt: &impl Abort,
    alloc: Global,
    tree: &Tree,
    mut pass: TreePass,
    first: u64,
    level: u32,
) -> (TreePass, Made)
    requires ready { IsReady tree.now.rows pass }
    requires parts { tree.now.rows.shape ≡ 3 }
    requires level { 0 < level }
    ensures { IsReady tree.now.rows result.0 }
{
    let mut made = Made {
        met: Met::nothing(),
        calls: Vec::new(alloc),
    };
    let mut word = first;
    for turn in 0..CALLS {
        word = next_word(word);
        let called = at_level(word, (turn / level) as u16);
        if !make_call(rt, tree, &mut pass, called, &mut made) {
            break;
        }
    }
    (pass, made)
}

// Two callers make calls at once; then their passes are joined.
fn call_by_two<R: Abort + Threads + Sync>(
    rt: &R,
    alloc: Global,
    tree: &Tree,
    a: TreePass,
    b: TreePass,
    level: u32,
) -> (TreePass, Made, Made)
    requires ready { IsReady tree.now.rows a × IsReady tree.now.rows b }
    requires parts { tree.now.rows.shape ≡ 3 }
    requires level { 0 < level }
    ensures { IsReady tree.now.rows result.0 }
{
    let ((mut a, by_a), (b, by_b)) = thread::join(
        rt,
        move ||
            requires { IsReady tree.now.rows a × (tree.now.rows.shape ≡ 3) × (0 < level) }
            ensures { IsReady tree.entry.now.rows result.0 }
        { make_calls(rt, alloc, tree, a, 20_262, level) },
        move ||
            requires { IsReady tree.now.rows b × (tree.now.rows.shape ≡ 3) × (0 < level) }
            ensures { IsReady tree.entry.now.rows result.0 }
        { make_calls(rt, alloc, tree, b, 88_173, level) },
    );
    Shared::join(tree, &mut a, b);
    (a, by_a, by_b)
}

// Two callers make calls at a tree in 64 rows, and their answers are those of the plain archive: what they met.
fn meet<R: Abort + Threads + Sync>(rt: &R, alloc: Global, level: u32) -> Result<Met, Fail>
    requires { 0 < level }
{
    let (tree, mut passes) = start_many(alloc, 3, 64, 2)?;
    let b = take_last(&tree, &mut passes).expect(rt, "two passes");
    let a = take_last(&tree, &mut passes).expect(rt, "two passes");
    let (mut pass, by_a, mut by_b) = call_by_two(rt, alloc, &tree, a, b, level);
    let mut met = by_a.met.with(&by_b.met);
    let mut calls = by_a.calls;
    calls.append(&mut by_b.calls)?;
    let mut plain = Plain::new(alloc, 3);
    let (accepted, differences) = replay(rt, &mut plain, &mut calls)?;
    assert_eq!(rt; differences, 0);
    assert!(rt; !snapshot_differs(alloc, &tree, &mut pass, &plain)?);
    met.again = u32::from(accepted > 64);
    Ok(met)
}

// With few calls for each level the tree has few points, and updates go on; with many it is full in the end.
#[test]
fn two_threads_at_few_rows_make_one_legal_history(rt: HostRuntime) -> Result<(), Fail> {
    let mut met = Met::nothing();
    for k in 0..TREES {
        met = met.with(&meet(&rt, rt.alloc(), 16 + k % 8 * 16)?);
        if k >= 8 && met.has_all() {
            return Ok(());
        }
    }
    assert!(&rt; met.has_all(), "{met:?}");
    Ok(())
}
