//! Updates of a tree in rows by one pass, beside the plain archive.
ghost use Rattle.std.specs.Prelude.{◌≡◌, ◌≤◌, [], length};
ghost use Rattle.era_core.specs.declared.sizes.TheConstants.{LAST_VERSION};
ghost use Rattle.era_rows.specs.Passes.{work_of, IsPassOf};
ghost use Rattle.nd_update.specs.Built.{IsPublishable};
ghost use Rattle.nd_update.specs.Resting.{IsAtRest};

use crate::rows::{ask, close, list, open, start};
use era_rows::{Pass, Rows};
use nd_rows::{Adds, NdLaw, recalls};
use nd_update::{BuildRefusal, Built, build, give_all_back};
use pls_archive::{Plain, Point, Single, Taken};
use pls_samples::{next_word, point, point_of, value};
use pls_vectors::Vector;
use std::alloc::{AllocError, Global};
use std::process::Abort;

// Publishes what was built, and leaves the version.
fn put(rows: &Rows<NdLaw>, pass: &mut Pass<NdLaw>, n: u64, point: &Point, built: Built) -> bool
    requires pass { IsPassOf rows.now pass.old }
    requires built { IsPublishable n point.now built pass.old }
    requires low { n ≤ LAST_VERSION }
    requires idle { work_of pass.old ≡ [] }
    ensures rest { IsAtRest rows.now pass.new }
{
    let adds = Adds {
        caller: rows.number(pass),
        stamp: n + 1,
        point: *point,
        removed: built.removed,
    };
    match rows.publish(pass, built.root, &adds) {
        Ok(_) => {
            close(rows, pass);
            true
        }
        Err(_) => {
            give_all_back(rows, pass);
            close(rows, pass);
            false
        }
    }
}

// Submits a point: nothing where no row is free.
fn add(rows: &Rows<NdLaw>, pass: &mut Pass<NdLaw>, point: &Point) -> Option<Taken>
    requires rest { IsAtRest rows.now pass.old }
    requires parts { length point.now.value ≡ rows.now.shape }
    ensures rest { IsAtRest rows.now pass.new }
{
    let n = open(rows, pass);
    match build(rows, pass, *point) {
        Ok(built) => {
            if put(rows, pass, n, point, built) {
                Some(Taken::Added {
                    removed: built.removed,
                })
            } else {
                None
            }
        }
        Err(BuildRefusal::Covered) => {
            close(rows, pass);
            Some(Taken::Refused)
        }
        Err(BuildRefusal::Full) => {
            close(rows, pass);
            None
        }
    }
}

// So many submissions of so many parts, to both archives.
fn replies_as_plain(
    rt: &impl Abort,
    alloc: Global,
    objectives: u8,
    count: u32,
) -> Result<(), AllocError>
    requires objectives { (2 ≤ objectives) × (objectives ≤ 4) }
{
    let (rows, mut pass) = start(alloc, objectives, 4_096)?;
    let mut plain = Plain::new(alloc, objectives);
    let mut word = 20_260_401u64 + u64::from(objectives);
    for k in 0..count {
        word = next_word(word);
        let point = &point_of(word, objectives, (k % 200) as u16 + 1);
        let value = &point.value;
        let asked = ask(&rows, &mut pass, value);
        assert_eq!(rt;
            asked,
            (plain.covered(value), plain.member(value)),
            "questions {k} of {objectives} parts"
        );
        let by_rows = add(&rows, &mut pass, point);
        let by_plain = plain.update(*point).expect(rt, "memory for a point");
        assert_eq!(rt; by_rows, Some(by_plain), "update {k} of {objectives} parts");
    }
    let by_rows = list(alloc, &rows, &mut pass)?;
    let by_plain = plain.snapshot(alloc)?;
    assert_eq!(rt;
        by_rows.as_slice(),
        by_plain.as_slice(),
        "the members of {objectives} parts"
    );
    Ok(())
}

#[test]
fn replies_as_the_plain_archive(rt: HostRuntime) -> Result<(), AllocError> {
    for objectives in [2, 3, 4] {
        replies_as_plain(&rt, rt.alloc(), objectives, 1_000)?;
    }
    Ok(())
}

// Asks whether the value is covered, and then whether the pass remembers a value that covers it.
fn asked_and_recalled(rows: &Rows<NdLaw>, pass: &mut Pass<NdLaw>, value: &Vector) -> (bool, bool)
    requires rest { IsAtRest rows.now pass.old }
    requires parts { length value.now ≡ rows.now.shape }
    ensures rest { IsAtRest rows.now pass.new }
{
    let is_covered = ask(rows, pass, value).0;
    (is_covered, recalls(pass, value))
}

#[test]
fn a_point_that_covers_is_remembered(rt: HostRuntime) -> Result<(), AllocError> {
    let (rows, mut pass) = start(rt.alloc(), 2, 64)?;
    add(&rows, &mut pass, &point(10, 0, 8));
    add(&rows, &mut pass, &point(0, 10, 8));
    // The box alone tells that this value is covered.
    let low = &Vector::from_places(2, [-1, -1, 0, 0]);
    assert_eq!(&rt; asked_and_recalled(&rows, &mut pass, low), (true, false));
    let by_point = asked_and_recalled(&rows, &mut pass, &value(5, 0));
    assert_eq!(&rt; by_point, (true, true));
    let above = asked_and_recalled(&rows, &mut pass, &value(11, 0));
    assert_eq!(&rt; above, (false, false));
    Ok(())
}
