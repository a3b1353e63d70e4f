//! Two passes of one shared tree, one after the other on one thread.
ghost use Rattle.std.specs.Prelude.{◌≡◌, ℕ, ◌<◌, ◌≤◌, Some, [], IfSome, length};
ghost use Rattle.era_core.specs.declared.sizes.TheConstants.{LAST_VERSION, ROOT_ROWS};
ghost use Rattle.era_rows.specs.Passes.{known_of, knows_of, marked_of, lists_of, work_of, IsPassOf};
ghost use Rattle.nd_update.specs.Counted.{IsCounted};
ghost use Rattle.nd_update.specs.Resting.{IsOpen};
ghost use Rattle.nd_shared.specs.Views.{IsReady, AreListed, BuildsAt, HasEvidence, Opens, Pins};

use crate::starts::{start_many, take_last};
use crate::tree::submit_front;
use era_rows::{Nothing, PublishRefusal, Rows};
use nd_rows::{Adds, NdLaw};
use nd_shared::{TreePass, TryRefusal};
use nd_update::{Built, build, give_all_back};
use pls_archive::{Point, Taken};
use pls_samples::point;
use std::alloc::AllocError;
use std::process::Abort;

#[test]
fn is_full_where_another_pass_reads(rt: HostRuntime) -> Result<(), AllocError> {
    let (tree, mut passes) = start_many(rt.alloc(), 2, 64, 2)?;
    let mut b = take_last(&tree, &mut passes).expect(&rt, "two passes");
    let mut a = take_last(&tree, &mut passes).expect(&rt, "two passes");
    tree.rows().pin(&mut a);
    let (added, refusal) = submit_front(&tree, &mut b);
    assert_eq!(&rt; (added, refusal), (27, Some(TryRefusal::Full)));
    tree.rows().unpin(&mut a, &Nothing);
    let answer = tree.try_update(&mut b, point(27, 73, 1));
    assert_eq!(&rt; answer, Ok((Taken::Added { removed: 0 }, 28)));
    assert!(&rt; tree.rows().waiting(&b) <= 8);
    Ok(())
}

// Pins the current version: its number and its root row.
fn pin(rows: &Rows<NdLaw>, pass: &mut TreePass) -> (u64, u32)
    requires ready { IsReady rows.now pass.old }
    ensures opened { IsOpen rows.now result.0 pass.new }
    ensures number { pass.new.number ≡ pass.old.number }
    ensures small { (result.0 ≤ LAST_VERSION) × (result.1 < ROOT_ROWS) }
    ensures pins { Pins result.0 result.1 (knows_of pass.old) (knows_of pass.new) }
{
    rows.pin(pass)
}

// Pins the current version: its number.
fn open(rows: &Rows<NdLaw>, pass: &mut TreePass) -> u64
    requires ready { IsReady rows.now pass.old }
    ensures opens { Opens rows.now result pass.old pass.new }
    ensures low { result ≤ LAST_VERSION }
    ensures counted { IsCounted (known_of pass.new) (marked_of pass.new) }
{
    pin(rows, pass).0
}

// Leaves the pinned version.
fn leave(rows: &Rows<NdLaw>, pass: &mut TreePass)
    requires pass { IsPassOf rows.now pass.old }
    requires pinned { (n p : ℕ) × ((known_of pass.old).core.pinned ≡ Some (n, p)) }
    requires no_fresh { (known_of pass.old).core.fresh ≡ [] }
    requires idle { work_of pass.old ≡ [] }
    requires listed { AreListed pass.old.number (lists_of pass.old) }
    requires short { HasEvidence (known_of pass.old) }
    ensures { IsReady rows.now pass.new }
{
    rows.unpin(pass, &Nothing);
}

// Pins the current version and builds its tree with the point: the version, and what was built.
fn begin(rows: &Rows<NdLaw>, pass: &mut TreePass, point: &Point) -> Option<(u64, Built)>
    requires ready { IsReady rows.now pass.old }
    requires parts { length point.now.value ≡ rows.now.shape }
    ensures low { IfSome result (λ b. b.0 ≤ LAST_VERSION) }
    ensures built { IfSome result (λ b. BuildsAt rows.now b.0 point.now b.1 pass.old pass.new) }
{
    let stamp = open(rows, pass);
    match build(rows, pass, *point) {
        Ok(built) => Some((stamp, built)),
        Err(_) => None,
    }
}

// Offers what was built, which another update was faster than, and leaves the version: why it was refused.
fn lose(
    rt: &impl Abort,
    rows: &Rows<NdLaw>,
    pass: &mut TreePass,
    stamp: u64,
    point: &Point,
    built: Built,
) -> PublishRefusal
    requires built { (p : _) × BuildsAt rows.now stamp point.now built p pass.old }
    requires parts { length point.now.value ≡ rows.now.shape }
    requires low { stamp ≤ LAST_VERSION }
    ensures ready { IsReady rows.now pass.new }
{
    let adds = Adds {
        caller: rows.number(pass),
        stamp: stamp + 1,
        point: *point,
        removed: built.removed,
    };
    let refusal = rows
        .publish(pass, built.root, &adds)
        .expect_err(rt, "another update was published");
    give_all_back(rows, pass);
    leave(rows, pass);
    refusal
}

#[test]
fn is_refused_what_was_built_before_another_update(rt: HostRuntime) -> Result<(), AllocError> {
    let (tree, mut passes) = start_many(rt.alloc(), 2, 64, 2)?;
    let mut b = take_last(&tree, &mut passes).expect(&rt, "two passes");
    let mut a = take_last(&tree, &mut passes).expect(&rt, "two passes");
    let rows = tree.rows();
    let late = &point(1, 1, 2);
    let (stamp, built) = begin(rows, &mut a, late).expect(&rt, "room for a point");
    let first = tree.try_update(&mut b, point(1, 1, 1));
    assert_eq!(&rt; first, Ok((Taken::Added { removed: 0 }, 1)));
    let refusal = lose(&rt, rows, &mut a, stamp, late, built);
    assert_eq!(&rt; refusal, PublishRefusal::Beaten(1));
    assert_eq!(&rt; tree.try_update(&mut a, *late), Ok((Taken::Refused, 1)));
    let (front, stamp) = tree.snapshot_now(rt.alloc(), &mut a)?;
    assert_eq!(&rt; front.as_slice(), [point(1, 1, 1)].as_slice());
    assert_eq!(&rt; stamp, 1);
    Ok(())
}
