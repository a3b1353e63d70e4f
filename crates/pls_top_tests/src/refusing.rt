//! A search over a shared tree that has no room for a third update.
ghost use Rattle.std.specs.Prelude.{◌≡◌, ◌≤◌, All, IfOk, true, false, length};
ghost use Rattle.pls_archive.specs.View.{new_view};
ghost use Rattle.pls_problem.specs.Instance.{feasible};
ghost use Rattle.nd_shared.specs.Views.{IsReady, view_of};

use crate::searched::{FOUR_CITIES, are_feasible, report_found, short_instance};
use nd_shared::{Tree, TreePass};
use pls_archive::{Nondominated, Point, PointList, Refusal, Shared, Taken};
use pls_pool::{Desk, OneQueue};
use pls_problem::Instance;
use pls_search::search;
use pls_top::NoGate;
use pls_vectors::{Sol, Vector};
use std::alloc::{AllocError, Global};
use std::sync::Wait;
use std::test::Fail;
use std::thread::Threads;

/// A tree whose calls are handed on, but for the third update of a pass, to which it answers that there is no room.
#[derive(Drop)]
pub(crate) struct Refusing {
    tree: Tree,
}

/// A pass of the tree.
#[derive(Drop)]
pub(crate) struct RefusingPass {
    pass: TreePass,
    /// How many updates it was asked for.
    updates: u64,
    /// One of these was answered so that there is no room.
    full: bool,
}

impl Shared for Refusing {
    ghost use Rattle.std.specs.Prelude.{true, false};
    ghost use Rattle.era_rows.specs.Passes.{IsPassOf};
    ghost use Rattle.pls_archive.specs.Reply.{nondominated};
    ghost use Rattle.pls_archive.specs.View.{IsConsistent};
    ghost use Rattle.nd_shared.specs.Views.{IsResting, view_of};

    type Law = Nondominated;

    type Pass = RefusingPass;

    ghost GROWS = { false };

    const GROWS: bool = false;

    ghost number = { λ _. 0 };

    ghost objectives = { λ t. t.tree.rows.shape };

    ghost passes = { λ t. t.tree.rows.passes };

    ghost safe = { λ _. 0 };

    ghost belongs = { λ t p. IsPassOf t.tree.rows p.pass × IsConsistent nondominated t.tree.rows.passes (view_of p.pass) };

    ghost at_rest = { λ p. IsResting p.pass };

    ghost view = { λ p. view_of p.pass };

    ghost shows_full = { λ p. p.full ≡ true };

    fn update<R: Wait>(
        &self,
        rt: &R,
        pass: &mut RefusingPass,
        point: Point,
    ) -> Result<(Taken, u64), Refusal> {
        pass.updates = pass.updates.saturating_add(1);
        if pass.updates == 3 {
            pass.full = true;
            return Err(Refusal::Full);
        }
        match self.tree.update(rt, &mut pass.pass, point) {
            Ok(answer) => Ok(answer),
            Err(refusal) => match refusal {
                Refusal::Full => {
                    pass.full = true;
                    Err(Refusal::Full)
                }
                Refusal::Spent => Err(Refusal::Spent),
                Refusal::Memory => Err(Refusal::Memory),
            },
        }
    }

    fn covered<R: Wait>(&self, rt: &R, pass: &mut RefusingPass, value: Vector) -> (bool, u64) {
        self.tree.covered(rt, &mut pass.pass, value)
    }

    fn member<R: Wait>(&self, rt: &R, pass: &mut RefusingPass, value: Vector) -> (bool, u64) {
        self.tree.member(rt, &mut pass.pass, value)
    }

    fn snapshot<R: Wait>(
        &self,
        rt: &R,
        alloc: Global,
        pass: &mut RefusingPass,
    ) -> Result<(PointList, u64), AllocError> {
        self.tree.snapshot(rt, alloc, &mut pass.pass)
    }

    fn join(&self, pass: &mut RefusingPass, other: RefusingPass) {
        let RefusingPass {
            pass: others,
            updates: _updates,
            full,
        } = other;
        pass.full = pass.full || full;
        self.tree.join(&mut pass.pass, others);
    }
}

/// An empty tree for vectors of so many parts, and its one pass.
fn start(alloc: Global, objectives: u8) -> Result<(Refusing, RefusingPass), AllocError>
    requires { (2 ≤ objectives) × (objectives ≤ 4) }
    ensures sizes { IfOk result (λ t. (t.0.tree.rows.shape ≡ objectives) × (t.0.tree.rows.passes ≡ 1)) }
    ensures ready { IfOk result (λ t. IsReady t.0.tree.rows t.1.pass × (view_of t.1.pass ≡ new_view 0) × (t.1.full ≡ false)) }
{
    let (tree, mut passes) = Tree::start(alloc, objectives, 64, 1)?;
    let pass = RefusingPass {
        pass: passes.remove(0),
        updates: 0,
        full: false,
    };
    Ok((Refusing { tree }, pass))
}

/// Searches from these starts with one worker over such a tree: the report of what was found, and how many updates the tree was
/// asked for.
fn report_refused<R: Threads + Wait + Sync>(
    rt: &R,
    alloc: Global,
    instance: &Instance,
    starts: &[Sol],
) -> Result<(Vec<u8>, u64), AllocError>
    requires feasible { All (λ s. feasible instance.now s ≡ true) starts.now }
    requires starts { (1 ≤ length starts.now) × (length starts.now ≤ 64) }
{
    let (archive, pass) = start(alloc, instance.objectives())?;
    let passes = Vec::from_array(alloc, [pass])?;
    let (pool, seats) = OneQueue::start(alloc, 1)?;
    let (desk, desk_seats) = Desk::start(alloc, 1000, 1)?;
    let found = search(
        rt, alloc, instance, starts, &archive, passes, &pool, seats, &desk, desk_seats, &NoGate,
    );
    let (text, pass) = report_found(alloc, instance, found)?;
    Ok((text, pass.updates))
}

// The start is the first update, and the first neighbour the second.
#[test]
fn reports_what_was_submitted_before(rt: HostRuntime) -> Result<(), Fail> {
    let alloc = rt.alloc();
    let starts = [Sol::order(4)];
    let instance = short_instance(alloc, FOUR_CITIES).ok_or("an instance")?;
    assert!(&rt; are_feasible(&instance, &starts));
    let (text, updates) = report_refused(&rt, alloc, &instance, &starts)?;
    assert_eq!(&rt;
        text.as_slice(),
        b"front 2 tour 2\n20 12 : 0 2 1 3\n4 28 : 0 1 2 3\nend full explored 0 evaluated 1 accepted 2\n".as_slice()
    );
    assert_eq!(&rt; updates, 3);
    Ok(())
}
