//! Building what an update is to publish.
ghost use Rattle.std.specs.Prelude.{◌≡◌, ◌≢◌, ℕ, true, Err, [], IfOk, IfErr, length, take};
ghost use Rattle.era_rows.specs.Known.{pinned_copy};
ghost use Rattle.era_rows.specs.Passes.{known_of, seen_of, marked_of, memory_of, work_of};
ghost use Rattle.pls_archive.specs.declared.call.Call.TheVariants.{Covered};
ghost use Rattle.pls_archive.specs.Archives.{yes_or_no};
ghost use Rattle.pls_archive.specs.History.{submissions};
ghost use Rattle.pls_archive.specs.Reply.{nondominated};
ghost use Rattle.nd_rows.specs.Entries.{recalls_value};
ghost use Rattle.nd_rows.specs.Layout.{IsTreeOf};
ghost use Rattle.nd_rows.specs.Nodes.{Nodes};
ghost use Rattle.nd_rows.specs.Reads.{HasPinnedTree};
ghost use Rattle.nd_update.specs.Built.{IsPublishable, says_covered};
ghost use Rattle.nd_update.specs.Building.{Goes};
ghost use Rattle.nd_update.specs.Counted.{IsCounted, IsCrowded, IsShort};
ghost use Rattle.nd_update.specs.Needed.{needed, ReadsOnly};
ghost use Rattle.nd_update.specs.declared.builds.BuildRefusal.TheVariants.{Full};

use crate::tree::{Tree, TreePass};
use nd_rows::recalls;
use nd_update::{BuildRefusal, Built, build};
use pls_archive::Point;

impl Tree {
    // Builds the pinned tree with the point, unless a value that the pass remembers covers it.
    pub(crate) fn try_build(
        &self,
        pass: &mut TreePass,
        point: &Point,
    ) -> Result<Built, BuildRefusal>
        requires tree { (n : ℕ) × HasPinnedTree self.now.rows n pass.old × (length (seen_of pass.old) ≡ n) }
        requires parts { length point.now.value ≡ self.now.rows.shape }
        requires no_fresh { (known_of pass.old).core.fresh ≡ [] }
        requires no_marks { marked_of pass.old ≡ [] }
        requires idle { work_of pass.old ≡ [] }
        requires counted { IsCounted (known_of pass.old) (marked_of pass.old) }
        ensures goes { Goes self.now.rows pass.old pass.new }
        ensures work { work_of pass.new ≡ [] }
        ensures full { result ≡ Err Full → IsShort (known_of pass.new) }
        ensures crowded { result ≡ Err Full → IsCrowded (known_of pass.new) }
        ensures same_full { result ≢ Err Full → (known_of pass.new).full ≡ (known_of pass.old).full }
        ensures built { IfOk result (λ b. (n : ℕ) → HasPinnedTree self.now.rows n pass.old → IsPublishable n point.now b pass.new) }
        ensures refused { IfErr result (λ _. ((known_of pass.new).core.fresh ≡ []) × (marked_of pass.new ≡ [])) }
        ensures covered { (n : ℕ) → HasPinnedTree self.now.rows n pass.old → yes_or_no (says_covered result) ≡ nondominated (submissions (take n (seen_of pass.old))) (Covered point.now.value) }
        ensures only { (t : Nodes) → IsTreeOf self.now.rows.shape (pinned_copy (known_of pass.old)) t → ReadsOnly (needed point.now.value self.now.rows.rows t) (known_of pass.old) (known_of pass.new) }
        ensures recalled { recalls_value (memory_of pass.old) point.now.value ≡ true → ReadsOnly [] (known_of pass.old) (known_of pass.new) }
    {
        if recalls(pass, &point.value) {
            return Err(BuildRefusal::Covered);
        }
        build(&self.rows, pass, *point)
    }
}
