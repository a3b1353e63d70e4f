//! The rows that a pass takes for a tree that it builds.
ghost use Rattle.std.specs.Prelude.{◌≡◌, ℕ, ◌+◌, Some, [], ◌∷◌, MatchOption};
ghost use Rattle.era_rows.specs.Passes.{known_of, marked_of, work_of, IsPassOf, seen_of, lists_of, memory_of};
ghost use Rattle.nd_update.specs.Building.{Builds, Does, Lacks, IsBuilding};
ghost use Rattle.nd_update.specs.Counted.{IsPaid};
ghost use Rattle.nd_update.specs.Needed.{ReadsOnly};

use era_one_row::find_row;
use era_rows::{Pass, Rows};
use nd_rows::NdLaw;

// A row that the pass then has. None only where no row is free, also after the pass freed what it can, and then it keeps an
// evidence of that.
pub(crate) fn take_row(rows: &Rows<NdLaw>, pass: &mut Pass<NdLaw>) -> Option<u32>
    requires building { IsBuilding rows.now pass.old }
    requires pinned { (n p : ℕ) × ((known_of pass.old).core.pinned ≡ Some (n, p)) }
    requires paid { IsPaid (rows.now.shape + 2) (known_of pass.old) (marked_of pass.old) }
    ensures does { MatchOption result (Lacks rows.now pass.old pass.new) (λ row. Does rows.now (row ∷ []) [] [] pass.old pass.new) }
    ensures work { work_of pass.new ≡ work_of pass.old }
    ensures only { ReadsOnly [] (known_of pass.old) (known_of pass.new) }
{
    find_row(rows, pass)
}

/// Gives all fresh rows back, those first that were taken last.
pub fn give_all_back(rows: &Rows<NdLaw>, pass: &mut Pass<NdLaw>)
    requires { IsPassOf rows.now pass.old }
    ensures pass { IsPassOf rows.now pass.new }
    ensures number { pass.new.number ≡ pass.old.number }
    ensures seen { seen_of pass.new ≡ seen_of pass.old }
    ensures lists { lists_of pass.new ≡ lists_of pass.old }
    ensures memory { memory_of pass.new ≡ memory_of pass.old }
    ensures builds { Builds (known_of pass.old) (known_of pass.new) }
    ensures fresh { (known_of pass.new).core.fresh ≡ [] }
    ensures looks { (known_of pass.new).looks ≡ (known_of pass.old).looks }
    ensures full { (known_of pass.new).full ≡ (known_of pass.old).full }
    ensures retired { (known_of pass.new).core.retired ≡ (known_of pass.old).core.retired }
    ensures marks { marked_of pass.new ≡ marked_of pass.old }
    ensures work { work_of pass.new ≡ work_of pass.old }
{
    while rows.fresh(pass) > 0 {
        let row = rows.fresh_row(pass, rows.fresh(pass) - 1);
        rows.give_back(pass, row);
    }
}
