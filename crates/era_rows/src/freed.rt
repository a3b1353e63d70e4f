//! The rows that a pass freed last.
ghost use Rattle.std.specs.Prelude.{◌≡◌, ◌<◌, ◌≤◌, ◌↔◌, IsSome, option_to_list, length, [], ◌∷◌, ◌++◌};
ghost use Rattle.era_rows.specs.declared.freed.TheConstants.{FREED_PLACES};

use std::marker::Model;

// How many rows are kept at most.
const FREED_PLACES: usize = 64;

/// The rows that are kept, in the order in which they were freed.
#[derive(Drop)]
pub(crate) struct Freed {
    rows: [u32; FREED_PLACES],
    count: usize,
}

impl Model for Freed {
    ghost use Rattle.std.specs.Prelude.{◌≤◌, ℕ, List, take};
    ghost use Rattle.era_rows.specs.declared.freed.TheConstants.{FREED_PLACES};

    ghost Value = { List ℕ };

    ghost view = { λ f. take f.count f.rows };

    ghost invariant = { λ f. f.count ≤ FREED_PLACES };
}

impl Freed {
    /// No row.
    pub(crate) fn none() -> Freed
        ensures { result ≡ [] }
    {
        Freed {
            rows: [0; FREED_PLACES],
            count: 0,
        }
    }

    /// Keeps a row behind the others, where there is a place left.
    pub(crate) fn push(&mut self, row: u32)
        ensures kept { length self.old < FREED_PLACES → self.new ≡ self.old ++ row ∷ [] }
        ensures full { FREED_PLACES ≤ length self.old → self.new ≡ self.old }
    {
        if self.count < FREED_PLACES {
            self.rows[self.count] = row;
            self.count += 1;
        }
    }

    /// Takes out the row that was put there last.
    pub(crate) fn pop(&mut self) -> Option<u32>
        ensures rows { self.old ≡ self.new ++ option_to_list result }
        ensures found { IsSome result ↔ (0 < length self.old) }
    {
        if self.count == 0 {
            return None;
        }
        self.count -= 1;
        Some(self.rows[self.count])
    }
}
