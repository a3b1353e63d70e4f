//! The view of a pass, as it runs.

ghost use Rattle.std.specs.Prelude.{◌≡◌, ◌/◌, ◌%◌, ◌^◌, ◌&&◌, ◌||◌, ◌==◌, ◌<◌, [], ◌∷◌, length, nat_lt, is_none, is_some, is_ok, if◌then◌else◌};
ghost use Rattle.std.specs.List.{list_any};
ghost use Rattle.era_core.specs.Lists.{is_in, without};
ghost use Rattle.era_core.specs.Views.{start_view, noting, pinning, looking, reading, taking, replacing, freeing, clears, without_row};
ghost use Rattle.era_core.specs.Passes.{batches_of, view_of};

use crate::lists::{is_among, remove_row};
use crate::reserved::{is_clear, lesser};
use crate::sizes::ROOT_ROWS;
use std::alloc::{AllocError, Global};

/// Retired rows, and the version that was the last to have them.
#[derive(Drop)]
pub(crate) struct Retired {
    pub(crate) version: u64,
    pub(crate) rows: Vec<u32>,
}

/// What a new version leaves to its pass: the fresh rows that it has no use for, and the rows that only the version
/// before had.
#[derive(Drop)]
pub(crate) struct Replaced {
    pub(crate) fresh: Vec<u32>,
    pub(crate) gone: Vec<u32>,
}

impl Retired {
    // Whether the row stands in this batch, and no reservation blocks the batch, where this is the least version that
    // one names.
    fn has_cleared(&self, row: u32, least: Option<u64>) -> bool
        ensures { result ≡ (is_in row self.now.rows.items && clears least self.now.version) }
    {
        is_among(row, &self.rows) && is_clear(least, self.version)
    }

    fn has_rows(&self) -> bool
        ensures { result ≡ nat_lt 0 (length self.now.rows.items) }
    {
        !self.rows.as_slice().is_empty()
    }
}

/// What a pass knows.
#[derive(Drop)]
pub(crate) struct PassView {
    pub(crate) number: u32,
    pub(crate) noted: Option<u64>,
    pub(crate) pinned: Option<(u64, u32)>,
    pub(crate) fresh: Vec<u32>,
    pub(crate) retired: Vec<Retired>,
    pub(crate) scanned: u32,
    pub(crate) least: Option<u64>,
    pub(crate) last: Option<u64>,
}

impl PassView {
    /// The view of a pass that has done nothing yet.
    pub(crate) fn new(alloc: Global, number: u32) -> Self
        ensures { view_of result ≡ start_view number }
    {
        PassView {
            number,
            noted: None,
            pinned: None,
            fresh: Vec::new(alloc),
            retired: Vec::new(alloc),
            scanned: 0,
            least: None,
            last: None,
        }
    }

    /// Notes the version of this root word: false, and nothing changed, where the pass is pinned or has a reservation.
    pub(crate) fn note(&mut self, root: u64, reserved: u64) -> bool
        ensures done { result ≡ (is_none (view_of self.old).pinned && (reserved == 0)) }
        ensures next { view_of self.new ≡ (if result then noting (root / ROOT_ROWS) (view_of self.old) else view_of self.old) }
    {
        if self.pinned.is_some() || reserved != 0 {
            return false;
        }
        self.noted = Some(root / ROOT_ROWS);
        true
    }

    /// Pins the version and the row of this root word: false, and nothing changed, where the pass is pinned or has no
    /// reservation.
    pub(crate) fn pin(&mut self, root: u64, reserved: u64) -> bool
        ensures done { result ≡ (is_none (view_of self.old).pinned && nat_lt 0 reserved) }
        ensures next { view_of self.new ≡ (if result then pinning (root / ROOT_ROWS) (root % ROOT_ROWS) (view_of self.old) else view_of self.old) }
    {
        if self.pinned.is_some() || reserved == 0 {
            return false;
        }
        self.noted = None;
        self.pinned = Some((root / ROOT_ROWS, (root % ROOT_ROWS) as u32));
        true
    }

    /// Goes on with a scan, or begins one at pass 0, by the reservation found of the pass `other`.
    pub(crate) fn look(&mut self, other: u32, reserved: u64) -> bool
        requires { other < 2 ^ 31 }
        ensures done { result ≡ ((other == 0) || (other == (view_of self.old).scanned)) }
        ensures next { view_of self.new ≡ (if result then looking other reserved (view_of self.old) else view_of self.old) }
    {
        if other != 0 && other != self.scanned {
            return false;
        }
        let before = if other == 0 { None } else { self.least };
        self.scanned = other + 1;
        self.least = lesser(before, reserved);
        true
    }

    /// Whether the row is a fresh one.
    pub(crate) fn has_fresh(&self, row: u32) -> bool
        ensures { result ≡ is_in row (view_of self.now).fresh }
    {
        is_among(row, &self.fresh)
    }

    /// Whether the row stands in a batch that no reservation blocks, by the reservations that the scan has seen.
    pub(crate) fn has_cleared(&self, row: u32) -> bool
        ensures { result ≡ list_any (λ b. is_in row b.1 && clears (view_of self.now).least b.0) (view_of self.now).retired }
    {
        for batch in &self.retired {
            if batch.has_cleared(row, self.least) {
                return true;
            }
        }
        false
    }

    /// Whether the pass may give the row back: a fresh one, or one that a whole scan of so many passes has cleared.
    pub(crate) fn may_free(&self, row: u32, passes: u32) -> bool
        ensures { result ≡ (is_in row (view_of self.now).fresh || (((view_of self.now).scanned == passes) && list_any (λ b. is_in row b.1 && clears (view_of self.now).least b.0) (view_of self.now).retired)) }
    {
        self.has_fresh(row) || (self.scanned == passes && self.has_cleared(row))
    }

    /// Has one more fresh row. After want of memory nothing changed.
    pub(crate) fn take(&mut self, row: u32) -> Result<(), AllocError>
        ensures { view_of self.new ≡ (if is_ok result then taking row (view_of self.old) else view_of self.old) }
    {
        self.fresh.push(row)?;
        Ok(())
    }

    /// Gives a row back, a fresh one or a retired one.
    pub(crate) fn free(&mut self, row: u32)
        ensures { view_of self.new ≡ freeing row (view_of self.old) }
    {
        if self.has_fresh(row) {
            remove_row(&mut self.fresh, row);
        } else {
            remove_retired(&mut self.retired, row);
        }
    }

    /// Retires the rows of a version that has passed, and ends the present scan. After want of memory nothing changed.
    pub(crate) fn publish(&mut self, version: u64, rows: Replaced) -> Result<(), AllocError>
        ensures { view_of self.new ≡ (if is_ok result then replacing version rows.fresh.items rows.gone.items (view_of self.old) else view_of self.old) }
    {
        let Replaced { fresh, gone } = rows;
        if !gone.is_empty() {
            let batch = Retired {
                version,
                rows: gone,
            };
            self.retired.push(batch)?;
        }
        self.fresh = fresh;
        self.scanned = 0;
        self.least = None;
        Ok(())
    }

    /// Remembers the word that a Read found.
    pub(crate) fn read(&mut self, word: u64)
        ensures { view_of self.new ≡ reading word (view_of self.old) }
    {
        self.last = Some(word);
    }
}

// Drops a row from all batches, and each batch that has no row any more.
fn remove_retired(batches: &mut Vec<Retired>, row: u32)
    ensures { batches_of batches.new.items ≡ without_row row (batches_of batches.old.items) }
{
    for index in 0..batches.len() {
        remove_row(&mut batches[index].rows, row);
    }
    batches.retain(|batch| batch.has_rows());
}
