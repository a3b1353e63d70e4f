//! Nine calls at each archive that callers share.
ghost use Rattle.std.specs.Prelude.{◌≡◌, [], IfOk};
ghost use Rattle.pls_turn.specs.Passes.{terms_of, IsPassOf};

use crate::starts::start;
use nd_tree::NdTree;
use pls_archive::{Plain, Shared, Single, Taken};
use pls_samples::{point, value};
use pls_turn::{TurnPass, Turned};
use std::alloc::{AllocError, Global};
use std::process::Abort;
use std::sync::Wait;
use std::test::*;

// Makes the calls at an archive that is new, and looks at each reply and its stamp.
fn make_calls<A: Shared, R: Wait + Abort>(
    rt: &R,
    alloc: Global,
    archive: &A,
    pass: &mut A::Pass,
) -> Result<(), Fail>
    requires pass { A.belongs archive.now pass.old × A.at_rest pass.old }
    requires parts { A.objectives archive.now ≡ 2 }
{
    let updates = [
        (1, 3, 1, Taken::Added { removed: 0 }, 1),
        (3, 1, 1, Taken::Added { removed: 0 }, 2),
        (2, 2, 1, Taken::Added { removed: 0 }, 3),
        (2, 2, 2, Taken::Refused, 3),
        (3, 3, 1, Taken::Added { removed: 3 }, 4),
    ];
    for (a, b, items, taken, stamp) in updates {
        let answer = archive.update(rt, pass, point(a, b, items));
        assert_eq!(rt; answer, Ok((taken, stamp)), "update by {a}, {b}");
    }
    assert_eq!(rt; archive.covered(rt, pass, value(2, 1)), (true, 4));
    assert_eq!(rt; archive.member(rt, pass, value(2, 2)), (false, 4));
    assert_eq!(rt; archive.member(rt, pass, value(3, 3)), (true, 4));
    let (front, stamp) = archive.snapshot(rt, alloc, pass)?;
    assert_eq!(rt; front.as_slice(), [point(3, 3, 1)].as_slice());
    assert_eq!(rt; stamp, 4);
    Ok(())
}

// The archive by turns, with one pass.
fn by_turns<S: Single>(alloc: Global, single: S) -> Result<(Turned<S>, TurnPass<S>), AllocError>
    requires { S.points single ≡ [] }
    ensures pass { IfOk result (λ t. IsPassOf t.0 t.1) }
    ensures terms { IfOk result (λ t. (terms_of t.0).single.value ≡ single) }
{
    let (archive, mut passes) = Turned::start(alloc, single, 1)?;
    let pass = passes.remove(0);
    Ok((archive, pass))
}

#[test]
fn the_plain_archive_by_turns_replies(rt: HostRuntime) -> Result<(), Fail> {
    let (archive, mut pass) = by_turns(rt.alloc(), Plain::new(rt.alloc(), 2))?;
    make_calls(&rt, rt.alloc(), &archive, &mut pass)
}

#[test]
fn the_nd_tree_by_turns_replies(rt: HostRuntime) -> Result<(), Fail> {
    let (archive, mut pass) = by_turns(rt.alloc(), NdTree::new(rt.alloc(), 2))?;
    make_calls(&rt, rt.alloc(), &archive, &mut pass)
}

#[test]
fn the_shared_tree_replies(rt: HostRuntime) -> Result<(), Fail> {
    let (tree, mut pass) = start(rt.alloc(), 2, 64)?;
    make_calls(&rt, rt.alloc(), &tree, &mut pass)
}
