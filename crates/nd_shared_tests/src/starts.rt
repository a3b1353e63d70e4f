//! Shared trees with their passes.
ghost use Rattle.std.specs.Prelude.{◌≡◌, ◌≤◌, All, IfOk, IfSome};
ghost use Rattle.era_core.specs.declared.sizes.TheConstants.{MOST_ROWS, MOST_PASSES};
ghost use Rattle.era_rows.specs.declared.sizes.TheConstants.{LEAST_ROWS};
ghost use Rattle.nd_shared.specs.Views.{IsReady};

use nd_shared::{Tree, TreePass};
use std::alloc::{AllocError, Global};

// An archive in so many rows, for vectors of so many parts, with one pass.
pub(super) fn start(
    alloc: Global,
    objectives: u8,
    rows: u32,
) -> Result<(Tree, TreePass), AllocError>
    requires objectives { (2 ≤ objectives) × (objectives ≤ 4) }
    requires rows { (LEAST_ROWS ≤ rows) × (rows ≤ MOST_ROWS) }
    ensures ready { IfOk result (λ t. IsReady t.0.rows t.1) }
    ensures parts { IfOk result (λ t. t.0.rows.shape ≡ objectives) }
{
    let (tree, mut passes) = Tree::start(alloc, objectives, rows, 1)?;
    let pass = passes.remove(0);
    Ok((tree, pass))
}

// An archive in so many rows, for vectors of so many parts, with so many passes.
pub(super) fn start_many(
    alloc: Global,
    objectives: u8,
    rows: u32,
    passes: u32,
) -> Result<(Tree, Vec<TreePass>), AllocError>
    requires objectives { (2 ≤ objectives) × (objectives ≤ 4) }
    requires rows { (LEAST_ROWS ≤ rows) × (rows ≤ MOST_ROWS) }
    requires passes { (1 ≤ passes) × (passes ≤ MOST_PASSES) }
    ensures ready { IfOk result (λ t. All (IsReady t.0.rows) t.1.items) }
    ensures parts { IfOk result (λ t. t.0.rows.shape ≡ objectives) }
{
    let (tree, passes) = Tree::start(alloc, objectives, rows, passes)?;
    Ok((tree, passes))
}

// Takes the last of the passes.
pub(super) fn take_last(tree: &Tree, passes: &mut Vec<TreePass>) -> Option<TreePass>
    requires { All (IsReady tree.now.rows) passes.old.items }
    ensures others { All (IsReady tree.now.rows) passes.new.items }
    ensures pass { IfSome result (IsReady tree.now.rows) }
{
    let _ = tree;
    passes.pop()
}
