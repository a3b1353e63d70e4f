//! Reading the current version.
ghost use Rattle.std.specs.Prelude.{◌≡◌, ℕ, ◌<◌, Some, None, []};
ghost use Rattle.era_core.specs.Versions.{Copy, look_up};
ghost use Rattle.era_rows.specs.Passes.{known_of, seen_of, lists_of, marked_of, IsPassOf, IsSamePass};
ghost use mathlib.Core.Option.{some};
ghost use lib.ListN.{get_elem?};
ghost use lib.ListN.{length};

use era_core::WIDTH;
use era_rows::{Law, Nothing, Pass, Rows};

/// The number of the current version, which is that of the accepted entries that the pass has then seen, and the word at a
/// place of its root row. Of a place that was never written nothing is said but that a word is there.
pub fn read_current<L: Law>(rows: &Rows<L>, pass: &mut Pass<L>, place: u32) -> (u64, u64)
    requires pass { IsPassOf rows.now pass.old }
    requires unpinned { (known_of pass.old).core.pinned ≡ None }
    requires place { place < WIDTH }
    ensures pass { IsPassOf rows.now pass.new }
    ensures same { IsSamePass pass.old pass.new }
    ensures unpinned { (known_of pass.new).core.pinned ≡ None }
    ensures marks { marked_of pass.new ≡ [] }
    ensures lists { lists_of pass.new ≡ lists_of pass.old }
    ensures version { result.0 ≡ length (seen_of pass.new) }
    ensures word { (c : Copy) (w : ℕ) → get_elem? (known_of pass.new).copies result.0 ≡ some c → look_up c.cells c.root place ≡ Some w → result.1 ≡ w }
{
    let (version, root) = rows.pin(pass);
    let word = rows.read(pass, root, place);
    rows.unpin(pass, &Nothing);
    (version, word)
}
