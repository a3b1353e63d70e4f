//! What the running rule says of every moment between two steps, in every schedule, and of every pass between two calls: laws,
//! on functions that do nothing.
ghost use Rattle.std.specs.Prelude.{◌≡◌, ℕ};
ghost use Rattle.era_core.specs.Lists.{In};
ghost use Rattle.era_core.specs.Versions.{Cell};
ghost use Rattle.era_rows.specs.FreshRows.{CountsLooks};
ghost use Rattle.era_rows.specs.Held.{HoldsRows};
ghost use Rattle.era_rows.specs.Laws.{FreeRowsAreUnused, PinnedVersionsStand};
ghost use Rattle.era_rows.specs.Passes.{knows_of, known_of, IsStarted};
ghost use Rattle.era_rows.specs.Plays.{IsConsistent};
ghost use mathlib.Core.Option.{some};
ghost use lib.ListN.{get_elem?};

use crate::law::Law;
use crate::pass::Pass;
use crate::rows::Rows;

/// A row without an owner is held by no pass, and is in no tree that a pass has pinned. So what a search takes was in none.
pub fn free_rows_are_unused<L: Law>()
    ensures { FreeRowsAreUnused L.caller L.stamp L.accepted L.lawful L.stands L.right }
{}

/// The words of the version that a pass has pinned stand as they were published, and each of its rows has an owner.
pub fn pinned_versions_stand<L: Law>()
    ensures { PinnedVersionsStand L.caller L.stamp L.accepted L.lawful L.stands L.right }
{}

/// The rows that a pass holds, fresh or retired, are different, and each is a row.
pub fn held_rows_are_different<L: Law>(pass: &Pass<L>)
    ensures { HoldsRows (known_of pass.now) }
{}

/// The words that a pass wrote lie in its fresh rows.
pub fn written_words_are_fresh<L: Law>(pass: &Pass<L>)
    ensures { (i : ℕ) (c : Cell) → get_elem? (known_of pass.now).written i ≡ some c → In c.row (known_of pass.now).core.fresh }
{}

/// A pass as the start leaves it is consistent: it has seen no entry, and version 0 stands for none.
pub fn started_passes_are_consistent<L: Law>(rows: &Rows<L>, pass: &Pass<L>)
    requires { (number : ℕ) × IsStarted rows.now number pass.now }
    ensures { IsConsistent L.caller L.stamp L.accepted L.lawful L.stands L.right (knows_of pass.now) }
{}

/// How many rows a call took and how many it read, look by look: a take adds one row that was taken, and a read none.
pub fn looks_are_counted()
    ensures { (passes rows : ℕ) → CountsLooks passes rows }
{}
