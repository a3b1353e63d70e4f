//! A tree in rows of one pass: its start, and questions to it.
ghost use Rattle.std.specs.Prelude.{◌≡◌, ℕ, ◌≤◌, Some, IfOk, [], length};
ghost use Rattle.era_core.specs.declared.sizes.TheConstants.{MOST_ROWS, LAST_VERSION};
ghost use Rattle.era_rows.specs.declared.sizes.TheConstants.{LEAST_ROWS};
ghost use Rattle.era_rows.specs.Passes.{known_of, work_of, marked_of, IsPassOf};
ghost use Rattle.nd_update.specs.Counted.{IsCounted};
ghost use Rattle.nd_update.specs.Resting.{IsAtRest, IsOpen};

use era_rows::{Nothing, Pass, Rows};
use nd_rows::{NdLaw, covered, gather, member};
use pls_archive::PointList;
use pls_vectors::Vector;
use std::alloc::{AllocError, Global};

// Rows with one pass.
pub(super) fn start(
    alloc: Global,
    objectives: u8,
    rows: u32,
) -> Result<(Rows<NdLaw>, Pass<NdLaw>), AllocError>
    requires some { LEAST_ROWS ≤ rows }
    requires few { rows ≤ MOST_ROWS }
    ensures rest { IfOk result (λ t. IsAtRest t.0 t.1) }
    ensures shape { IfOk result (λ t. t.0.shape ≡ objectives) }
{
    let (rows, mut passes): (Rows<NdLaw>, Vec<Pass<NdLaw>>) = Rows::start(
        alloc,
        u64::from(objectives),
        rows,
        1,
    )?;
    let pass = passes.remove(0);
    Ok((rows, pass))
}

// Pins the current version.
pub(super) fn open(rows: &Rows<NdLaw>, pass: &mut Pass<NdLaw>) -> u64
    requires rest { IsAtRest rows.now pass.old }
    ensures open { IsOpen rows.now result pass.new }
    ensures counted { IsCounted (known_of pass.new) (marked_of pass.new) }
    ensures low { result ≤ LAST_VERSION }
{
    rows.pin(pass).0
}

// Leaves it.
pub(super) fn close(rows: &Rows<NdLaw>, pass: &mut Pass<NdLaw>)
    requires pass { IsPassOf rows.now pass.old }
    requires pinned { (n : ℕ) × ((p : ℕ) × ((known_of pass.old).core.pinned ≡ Some (n, p))) }
    requires no_fresh { (known_of pass.old).core.fresh ≡ [] }
    requires idle { work_of pass.old ≡ [] }
    ensures rest { IsAtRest rows.now pass.new }
{
    rows.unpin(pass, &Nothing);
    rows.tidy(pass);
}

// Whether a value is covered, and whether a member has it.
pub(super) fn ask(rows: &Rows<NdLaw>, pass: &mut Pass<NdLaw>, value: &Vector) -> (bool, bool)
    requires rest { IsAtRest rows.now pass.old }
    requires parts { length value.now ≡ rows.now.shape }
    ensures rest { IsAtRest rows.now pass.new }
{
    open(rows, pass);
    let is_covered = covered(rows, pass, value);
    let is_member = member(rows, pass, value);
    close(rows, pass);
    (is_covered, is_member)
}

// The members.
pub(super) fn list(
    alloc: Global,
    rows: &Rows<NdLaw>,
    pass: &mut Pass<NdLaw>,
) -> Result<PointList, AllocError>
    requires rest { IsAtRest rows.now pass.old }
    ensures rest { IsAtRest rows.now pass.new }
{
    open(rows, pass);
    let members = gather(alloc, rows, pass);
    close(rows, pass);
    members
}
