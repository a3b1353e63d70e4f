//! Laws of the machine, over every machine, every event and every list of events. The functions do nothing: what they
//! ensure is proved of the definitions, by which the calls of the machine say what they do.

ghost use Rattle.std.specs.Prelude.{◌≡◌, ◌≢◌, ℕ, ◌<◌, ◌≤◌, Some, IsTrue, List};
ghost use Rattle.std.specs.List.{list_all};
ghost use Rattle.era_core.specs.Lists.{times, In, AreClosed, tree};
ghost use Rattle.era_core.specs.Versions.{Copy};
ghost use Rattle.era_core.specs.Machine.{Machine, IsSound, VersionStands, start, start_copies, play, copies, after, copies_after, allows, owner_of, cell_of, tree_of, pin_of, fresh_of, last_of, published_word, keeps_pin};
ghost use Rattle.era_core.specs.declared.event.Event.{Event};
ghost use Rattle.era_core.specs.declared.event.Event.TheVariants.{Read, Take};

use crate::sizes::{MOST_ROWS, WIDTH};

/// Whatever the passes do from the start on, and in whatever order, the machine is sound.
pub fn schedules_are_sound()
    ensures { (rows passes : ℕ) (events : List Event) → 0 < rows → rows ≤ MOST_ROWS
        → IsSound (play events (start rows passes)) (copies events (start rows passes) (start_copies rows passes)) }
{}

/// Each event keeps a machine sound, from any state.
pub fn events_keep_soundness()
    ensures { (m : Machine) (cs : List Copy) (e : Event) → IsSound m cs → IsSound (after m e) (copies_after m cs e) }
{}

/// Where the rows of a tree are different, and each is a row, each link of one of its rows is one of its rows: nothing was
/// cut from it.
pub fn trees_are_closed()
    ensures { (links : ℕ → List ℕ) (rows root : ℕ) → ((r : ℕ) → times r (tree links rows root) ≤ 1) → ((r : ℕ) → In r (tree links rows root) → r < rows)
        → AreClosed links (tree links rows root) }
{}

/// A pinned pass may read each row of its tree, and reads the words of the version that it pinned.
pub fn pinned_reads()
    ensures { (m : Machine) (cs : List Copy) → IsSound m cs → (k n root r p : ℕ) → pin_of m k ≡ Some (n, root) → In r (tree_of m root) → p < WIDTH
        → IsTrue (allows m (Read k r p)) × (last_of (after m (Read k r p)) k ≡ published_word cs n r p) }
{}

/// A pass may read each of its fresh rows, and reads the words that stand there.
pub fn fresh_reads()
    ensures { (m : Machine) (cs : List Copy) → IsSound m cs → (k r p : ℕ) → In r (fresh_of m k) → p < WIDTH
        → IsTrue (allows m (Read k r p)) × (last_of (after m (Read k r p)) k ≡ Some (cell_of m r p)) }
{}

/// A Take that changes an owner takes a row that no pinned pass can read.
pub fn taken_rows_are_unread()
    ensures { (m : Machine) (cs : List Copy) → IsSound m cs → (k r j n root : ℕ) → owner_of (after m (Take k r)) r ≢ owner_of m r
        → pin_of m j ≡ Some (n, root) → ¬ In r (tree_of m root) }
{}

/// While a pass is pinned, and whatever the passes do meanwhile, its version stands: its tree has the same rows, no
/// word of them changes, and none of them is free, so none is given out again.
pub fn versions_stand()
    ensures { (m : Machine) (cs : List Copy) → IsSound m cs → (k n root : ℕ) → pin_of m k ≡ Some (n, root)
        → (events : List Event) → IsTrue (list_all (keeps_pin k) events)
        → (pin_of (play events m) k ≡ Some (n, root)) × VersionStands m (play events m) root }
{}
