//! The shared tree, and its start.
ghost use Rattle.std.specs.Prelude.{◌≡◌, ℕ, ◌≤◌, IfOk, None, vec_len};
ghost use Rattle.era_core.specs.declared.sizes.TheConstants.{MOST_ROWS, MOST_PASSES};
ghost use Rattle.era_rows.specs.declared.sizes.TheConstants.{LEAST_ROWS};
ghost use Rattle.era_rows.specs.Passes.{known_of};
ghost use Rattle.pls_archive.specs.View.{new_view};
ghost use Rattle.nd_shared.specs.Views.{IsReady, view_of};
ghost use mathlib.Core.Option.{some};
ghost use lib.ListN.{get_elem?};

use era_rows::{Pass, Rows};
use nd_rows::NdLaw;
use std::alloc::{AllocError, Global};

/// The pass of a caller.
pub type TreePass = Pass<NdLaw>;

/// The nondominated archive that callers share, as an ND-tree in rows of words.
#[derive(Drop)]
pub struct Tree {
    pub(crate) rows: Rows<NdLaw>,
    ghost few: { rows.shape ≤ 4 },
}

impl Tree {
    /// An archive without members in so many rows, for vectors of so many parts, with so many passes.
    pub fn start(
        alloc: Global,
        objectives: u8,
        rows: u32,
        passes: u32,
    ) -> Result<(Tree, Vec<TreePass>), AllocError>
        requires objectives { (2 ≤ objectives) × (objectives ≤ 4) }
        requires rows { (LEAST_ROWS ≤ rows) × (rows ≤ MOST_ROWS) }
        requires passes { (1 ≤ passes) × (passes ≤ MOST_PASSES) }
        ensures sizes { IfOk result (λ t. (t.0.rows.shape ≡ objectives) × (t.0.rows.rows ≡ rows) × (t.0.rows.passes ≡ passes)) }
        ensures count { IfOk result (λ t. vec_len t.1 ≡ passes) }
        ensures passes { IfOk result (λ t. (k : ℕ) (p : _) → get_elem? t.1.items k ≡ some p → IsReady t.0.rows p × (view_of p ≡ new_view k) × ((known_of p).full ≡ None)) }
    {
        let (rows, passes) = Rows::start(alloc, u64::from(objectives), rows, passes)?;
        Ok((Tree { rows }, passes))
    }

    pub fn rows(&self) -> &Rows<NdLaw>
        ensures { result.now ≡ self.now.rows }
    {
        &self.rows
    }
}
