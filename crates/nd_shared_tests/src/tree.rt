//! A shared tree of one caller, in few rows.
ghost use Rattle.std.specs.Prelude.{◌≡◌};
ghost use Rattle.nd_shared.specs.Views.{IsReady};

use crate::starts::start;
use nd_shared::{Tree, TreePass, TryRefusal};
use pls_archive::Taken;
use pls_samples::point;
use std::alloc::AllocError;

// Submits points of a front of 101 one after another, until one is refused: how many were added, and why.
pub(super) fn submit_front(tree: &Tree, pass: &mut TreePass) -> (u64, Option<TryRefusal>)
    requires ready { IsReady tree.now.rows pass.old }
    requires parts { tree.now.rows.shape ≡ 2 }
    ensures ready { IsReady tree.now.rows pass.new }
{
    for k in 0..101 {
        match tree.try_update(pass, point(k, 100 - k, 1)) {
            Ok(_) => {}
            Err(refusal) => return (k as u64, Some(refusal)),
        }
    }
    (101, None)
}

#[test]
fn is_full_where_no_row_is_left(rt: HostRuntime) -> Result<(), AllocError> {
    let (tree, mut pass) = start(rt.alloc(), 2, 64)?;
    let (added, refusal) = submit_front(&tree, &mut pass);
    assert_eq!(&rt; refusal, Some(TryRefusal::Full));
    // a point that a member covers wants no row
    let answer = tree.try_update(&mut pass, point(0, 50, 1));
    assert_eq!(&rt; answer, Ok((Taken::Refused, added)));
    let (front, stamp) = tree.snapshot_now(rt.alloc(), &mut pass)?;
    assert_eq!(&rt; stamp, added, "a refusal adds nothing");
    assert_eq!(&rt; front.as_slice().len() as u64, added);
    Ok(())
}

#[test]
fn has_room_for_one_point_in_eight_rows_beyond_64(rt: HostRuntime) -> Result<(), AllocError> {
    let (tree, mut pass) = start(rt.alloc(), 2, 304)?;
    for k in 0..30 {
        let answer = tree.try_update(&mut pass, point(k, 100 - k, 1));
        assert_eq!(&rt; answer, Ok((Taken::Added { removed: 0 }, u64::from(k) + 1)));
    }
    Ok(())
}
