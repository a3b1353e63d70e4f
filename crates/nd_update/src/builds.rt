//! The update of a pinned tree by a point.
ghost use Rattle.std.specs.Prelude.{◌≡◌, ◌≢◌, ℕ, false, None, Err, [], IfOk, IfErr, IfSome, ◌++◌, length, take};
ghost use Rattle.era_rows.specs.Known.{pinned_copy};
ghost use Rattle.era_rows.specs.Passes.{known_of, seen_of, marked_of, work_of, IsPassOf};
ghost use Rattle.pls_archive.specs.Archives.{yes_or_no};
ghost use Rattle.pls_archive.specs.History.{submissions};
ghost use Rattle.pls_archive.specs.Reply.{nondominated, some_weakly_dominates};
ghost use Rattle.pls_archive.specs.declared.call.Call.TheVariants.{Covered};
ghost use Rattle.nd_rows.specs.Layout.{IsTreeOf};
ghost use Rattle.nd_rows.specs.Nodes.{Nodes, points_of};
ghost use Rattle.nd_rows.specs.Reads.{HasPinnedTree};
ghost use Rattle.nd_update.specs.Building.{Goes, Lacks};
ghost use Rattle.nd_update.specs.Built.{IsPublishable, says_covered};
ghost use Rattle.nd_update.specs.Counted.{IsCounted, IsWithin, IsCrowded, IsShort};
ghost use Rattle.nd_update.specs.Needed.{ReadsOnly, opened, on_way, needed};
ghost use Rattle.nd_update.specs.Removal.{without_dominated};
ghost use Rattle.nd_update.specs.declared.builds.BuildRefusal.TheVariants.{Full};

use crate::inserts::insert;
use crate::removes::remove;
use crate::takes::give_all_back;
use era_rows::{Pass, Rows};
use nd_rows::{NdLaw, covered};
use pls_archive::Point;

/// A new tree in fresh rows: its root row, and how many points of the pinned one it has no more.
#[derive(Clone, Copy, Debug, PartialEq, Eq, Drop)]
pub struct Built {
    pub root: u32,
    pub removed: u32,
}

/// Why no new tree was built.
#[derive(Clone, Copy, Debug, PartialEq, Eq, Drop)]
pub enum BuildRefusal {
    /// A point of the pinned tree covers the value.
    Covered,
    /// No row was free.
    Full,
}

// Writes the pinned tree, in which no point covers this one, with the point. None where no row is free.
fn write_tree(rows: &Rows<NdLaw>, pass: &mut Pass<NdLaw>, root: u32, point: &Point) -> Option<Built>
    requires tree { (n : ℕ) × ((tree : HasPinnedTree rows.now n pass.old) × (tree.root ≡ root) × (some_weakly_dominates (points_of tree.stands.0) point.now.value ≡ false)) }
    requires parts { length point.now.value ≡ rows.now.shape }
    requires no_fresh { (known_of pass.old).core.fresh ≡ [] }
    requires no_marks { marked_of pass.old ≡ [] }
    requires idle { work_of pass.old ≡ [] }
    requires counted { IsCounted (known_of pass.old) (marked_of pass.old) }
    ensures goes { Goes rows.now pass.old pass.new }
    ensures work { work_of pass.new ≡ [] }
    ensures within { IsWithin (known_of pass.new) }
    ensures lacks { result ≡ None → Lacks rows.now pass.old pass.new }
    ensures full { result ≢ None → (known_of pass.new).full ≡ (known_of pass.old).full }
    ensures built { IfSome result (λ b. (n : ℕ) (tree : HasPinnedTree rows.now n pass.old) → some_weakly_dominates (points_of tree.stands.0) point.now.value ≡ false → IsPublishable n point.now b pass.new) }
    ensures only { (t : Nodes) → IsTreeOf rows.now.shape (pinned_copy (known_of pass.old)) t → some_weakly_dominates (points_of t) point.now.value ≡ false
        → ReadsOnly (opened point.now.value t ++ on_way point.now.value (without_dominated rows.now.rows point.now.value t) 0) (known_of pass.old) (known_of pass.new) }
{
    let _ = point.value.len();
    let left = remove(rows, pass, root, &point.value)?;
    let root = insert(rows, pass, left.root, point)?;
    Some(Built {
        root,
        removed: left.removed,
    })
}

// Gives back what was taken for a tree, and takes the marks back.
fn give_up(rows: &Rows<NdLaw>, pass: &mut Pass<NdLaw>)
    requires { IsPassOf rows.now pass.old }
    ensures goes { Goes rows.now pass.old pass.new }
    ensures within { IsWithin (known_of pass.old) → IsWithin (known_of pass.new) }
    ensures crowded { IsCrowded (known_of pass.old) → IsCrowded (known_of pass.new) }
    ensures short { IsShort (known_of pass.old) → IsShort (known_of pass.new) }
    ensures fresh { (known_of pass.new).core.fresh ≡ [] }
    ensures marks { marked_of pass.new ≡ [] }
    ensures work { work_of pass.new ≡ work_of pass.old }
    ensures only { ReadsOnly [] (known_of pass.old) (known_of pass.new) }
{
    give_all_back(rows, pass);
    rows.unmark(pass);
}

/// Builds the pinned tree with one point more in fresh rows: points that the new one weakly dominates go, and nodes without points.
/// The rows of the pinned tree that the new one has no more are marked, so that the tree can be published. Of the pinned tree it
/// reads the rows that the update needs, and no others.
///
/// # Errors
///
/// `Covered` exactly where a point of the pinned tree covers the value, and `Full` only where this call found an owner of each row
/// after it freed what no other pass may read, of which the pass keeps an evidence. A pass that is alone has then pinned a tree of
/// nearly half the rows. After a refusal the pass has no fresh row and no mark.
pub fn build(
    rows: &Rows<NdLaw>,
    pass: &mut Pass<NdLaw>,
    point: Point,
) -> Result<Built, BuildRefusal>
    requires tree { (n : ℕ) × HasPinnedTree rows.now n pass.old }
    requires parts { length point.value ≡ rows.now.shape }
    requires no_fresh { (known_of pass.old).core.fresh ≡ [] }
    requires no_marks { marked_of pass.old ≡ [] }
    requires idle { work_of pass.old ≡ [] }
    requires counted { IsCounted (known_of pass.old) (marked_of pass.old) }
    ensures goes { Goes rows.now pass.old pass.new }
    ensures work { work_of pass.new ≡ [] }
    ensures within { IsWithin (known_of pass.new) }
    ensures full { result ≡ Err Full → IsShort (known_of pass.new) }
    ensures crowded { result ≡ Err Full → IsCrowded (known_of pass.new) }
    ensures same_full { result ≢ Err Full → (known_of pass.new).full ≡ (known_of pass.old).full }
    ensures built { IfOk result (λ b. (n : ℕ) → HasPinnedTree rows.now n pass.old → IsPublishable n point b pass.new) }
    ensures refused { IfErr result (λ _. ((known_of pass.new).core.fresh ≡ []) × (marked_of pass.new ≡ [])) }
    ensures covered { (n : ℕ) → HasPinnedTree rows.now n pass.old → yes_or_no (says_covered result) ≡ nondominated (submissions (take n (seen_of pass.old))) (Covered point.value) }
    ensures only { (t : Nodes) → IsTreeOf rows.now.shape (pinned_copy (known_of pass.old)) t → ReadsOnly (needed point.value rows.now.rows t) (known_of pass.old) (known_of pass.new) }
{
    let point = &point;
    if covered(rows, pass, &point.value) {
        return Err(BuildRefusal::Covered);
    }
    let Some(pin) = rows.pinned(pass) else {
        unreachable!()
    };
    let Some(built) = write_tree(rows, pass, pin.1, point) else {
        give_up(rows, pass);
        return Err(BuildRefusal::Full);
    };
    Ok(built)
}
