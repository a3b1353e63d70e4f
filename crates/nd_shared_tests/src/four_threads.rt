//! Four callers on four threads.
ghost use Rattle.std.specs.Prelude.{◌≡◌, IfOk};
ghost use Rattle.nd_shared.specs.Views.{IsReady};

use crate::generated::{Answered, at_level, call, replay, snapshot_differs};
use crate::starts::{start_many, take_last};
use nd_shared::{Tree, TreePass};
use pls_archive::{Plain, Shared};
use pls_samples::next_word;
use std::alloc::{AllocError, Global};
use std::process::Abort;
use std::sync::Wait;
use std::test::*;
use std::thread;
use std::thread::Threads;

const CALLS: u32 = 1_000;

// A pass, and the calls that were made through it.
type Called = (TreePass, Vec<Answered>);

// Makes the calls that words from this one on choose: none past one that is refused.
fn make_calls<R: Abort + Wait>(
    rt: &R,
    alloc: Global,
    tree: &Tree,
    mut pass: TreePass,
    first: u64,
) -> Called
    requires ready { IsReady tree.now.rows pass }
    requires parts { tree.now.rows.shape ≡ 3 }
    ensures { IsReady tree.now.rows result.0 }
{
    let mut calls = Vec::new(alloc);
    let mut word = first;
    for _ in 0..CALLS {
        word = next_word(word);
        let Some(made) = call(rt, tree, &mut pass, at_level(word, 0)) else {
            break;
        };
        if calls.push(made).is_err() {
            break;
        }
    }
    (pass, calls)
}

// Two callers make calls at once; then their passes are joined.
fn call_by_two<R: Abort + Threads + Wait + Sync>(
    rt: &R,
    alloc: Global,
    tree: &Tree,
    passes: (TreePass, TreePass),
    first: u64,
) -> (Called, Vec<Answered>)
    requires ready { IsReady tree.now.rows passes.0 × IsReady tree.now.rows passes.1 }
    requires parts { tree.now.rows.shape ≡ 3 }
    ensures { IsReady tree.now.rows result.0.0 }
{
    let (a, b) = passes;
    let ((mut a, by_a), (b, by_b)) = thread::join(
        rt,
        move ||
            requires { IsReady tree.now.rows a × (tree.now.rows.shape ≡ 3) }
            ensures { IsReady tree.entry.now.rows result.0 }
        { make_calls(rt, alloc, tree, a, first) },
        move ||
            requires { IsReady tree.now.rows b × (tree.now.rows.shape ≡ 3) }
            ensures { IsReady tree.entry.now.rows result.0 }
        { make_calls(rt, alloc, tree, b, next_word(first)) },
    );
    Shared::join(tree, &mut a, b);
    ((a, by_a), by_b)
}

// Four callers make calls at once; then their passes and the lists of their calls are joined.
fn call_by_four<R: Abort + Threads + Wait + Sync>(
    rt: &R,
    alloc: Global,
    tree: &Tree,
    left: (TreePass, TreePass),
    right: (TreePass, TreePass),
) -> Result<Called, AllocError>
    requires left { IsReady tree.now.rows left.0 × IsReady tree.now.rows left.1 }
    requires right { IsReady tree.now.rows right.0 × IsReady tree.now.rows right.1 }
    requires parts { tree.now.rows.shape ≡ 3 }
    ensures { IfOk result (λ c. IsReady tree.now.rows c.0) }
{
    let (((mut ab, mut calls), mut by_b), ((cd, mut by_c), mut by_d)) = thread::join(
        rt,
        move ||
            requires { IsReady tree.now.rows left.0 × IsReady tree.now.rows left.1 × (tree.now.rows.shape ≡ 3) }
            ensures { IsReady tree.entry.now.rows result.0.0 }
        { call_by_two(rt, alloc, tree, left, 20_261) },
        move ||
            requires { IsReady tree.now.rows right.0 × IsReady tree.now.rows right.1 × (tree.now.rows.shape ≡ 3) }
            ensures { IsReady tree.entry.now.rows result.0.0 }
        { call_by_two(rt, alloc, tree, right, 88_172) },
    );
    Shared::join(tree, &mut ab, cd);
    calls.append(&mut by_b)?;
    calls.append(&mut by_c)?;
    calls.append(&mut by_d)?;
    Ok((ab, calls))
}

#[test]
fn four_threads_make_one_legal_history(rt: HostRuntime) -> Result<(), Fail> {
    let (tree, mut passes) = start_many(rt.alloc(), 3, 16_384, 4)?;
    let d = take_last(&tree, &mut passes).expect(&rt, "four passes");
    let c = take_last(&tree, &mut passes).expect(&rt, "four passes");
    let b = take_last(&tree, &mut passes).expect(&rt, "four passes");
    let a = take_last(&tree, &mut passes).expect(&rt, "four passes");
    let (mut pass, mut calls) = call_by_four(&rt, rt.alloc(), &tree, (a, b), (c, d))?;
    assert_eq!(&rt; calls.len(), 4 * CALLS as usize);
    let mut plain = Plain::new(rt.alloc(), 3);
    let (accepted, differences) = replay(&rt, &mut plain, &mut calls)?;
    assert_eq!(&rt; differences, 0);
    assert!(&rt; accepted > 100);
    assert!(&rt; !snapshot_differs(rt.alloc(), &tree, &mut pass, &plain)?);
    Ok(())
}
