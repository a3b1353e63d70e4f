//! The events of the running machine, each as one function: false exactly where the event is not allowed, and then
//! nothing changed.

ghost use Rattle.std.specs.Prelude.{◌≡◌, ℕ, ◌<◌, ◌≤◌, ◌||◌, length, IfOk, OnOk, OnErr};
ghost use Rattle.era_core.specs.Lists.{In, is_in};
ghost use Rattle.era_core.specs.Words.{words_len};
ghost use Rattle.era_core.specs.Passes.{view_of};
ghost use Rattle.era_core.specs.Machine.{pinned_rows, allows, after};
ghost use Rattle.era_core.specs.declared.event.Event.TheVariants.{Note, Announce, Pin, Read, Take, Write, Unpin, Look, Free};

use crate::arena::Core;
use crate::pass::PassView;
use crate::sizes::{MOST_ROWS, ROOT_ROWS, WIDTH};
use crate::walk::stands_in_tree;
use std::alloc::{AllocError, Global};

// Whether a pass may read a row: a fresh one, or one of the version that it has pinned.
fn may_read(
    alloc: Global,
    words: &[u64],
    passes: u32,
    rows: u32,
    view: &PassView,
    row: u32,
) -> Result<bool, AllocError>
    requires long { length words.now ≡ words_len passes rows }
    requires few_rows { rows ≤ MOST_ROWS }
    requires in_range { (x : ℕ) → In x (pinned_rows passes rows words.now (view_of view.now).pinned) → x < rows }
    ensures { IfOk result (λ may. may ≡ (is_in row (view_of view.now).fresh || is_in row (pinned_rows passes rows words.now (view_of view.now).pinned))) }
{
    if view.has_fresh(row) {
        return Ok(true);
    }
    match view.pinned {
        None => Ok(false),
        Some((_, root)) => stands_in_tree(alloc, words, passes, rows, root, row),
    }
}

impl Core {
    // Notes the version at the root.
    pub(crate) fn note(&mut self, pass: u32) -> bool
        ensures done { result ≡ allows self.old (Note pass) }
        ensures next { self.new ≡ after self.old (Note pass) }
    {
        if pass >= self.passes {
            return false;
        }
        let root = self.words[0];
        let reserved = self.words[1 + pass as usize];
        let view = &mut self.views[pass as usize];
        view.note(root, reserved)
    }

    // Stores the noted version as the reservation of the pass.
    pub(crate) fn announce(&mut self, pass: u32) -> bool
        ensures done { result ≡ allows self.old (Announce pass) }
        ensures next { self.new ≡ after self.old (Announce pass) }
    {
        if pass >= self.passes || self.words[1 + pass as usize] != 0 {
            return false;
        }
        let Some(version) = self.views[pass as usize].noted else {
            return false;
        };
        let newest = self.words[0] / ROOT_ROWS;
        prove!(version <= newest);
        self.words[1 + pass as usize] = version + 1;
        true
    }

    // Pins the version and the row at the root.
    pub(crate) fn pin(&mut self, pass: u32) -> bool
        ensures done { result ≡ allows self.old (Pin pass) }
        ensures next { self.new ≡ after self.old (Pin pass) }
    {
        if pass >= self.passes {
            return false;
        }
        let root = self.words[0];
        let reserved = self.words[1 + pass as usize];
        let view = &mut self.views[pass as usize];
        view.pin(root, reserved)
    }

    // Looks at the reservation of another pass, or of its own.
    pub(crate) fn look(&mut self, pass: u32, other: u32) -> bool
        ensures done { result ≡ allows self.old (Look pass other) }
        ensures next { self.new ≡ after self.old (Look pass other) }
    {
        if pass >= self.passes || other >= self.passes {
            return false;
        }
        let reserved = self.words[1 + other as usize];
        let view = &mut self.views[pass as usize];
        view.look(other, reserved)
    }

    // Loads a word of a row of the pinned version, or of a fresh row. After want of memory nothing changed.
    pub(crate) fn read(&mut self, pass: u32, row: u32, place: u32) -> Result<bool, AllocError>
        ensures done { IfOk result (λ done. done ≡ allows self.old (Read pass row place)) }
        ensures next { OnOk result (self.new ≡ after self.old (Read pass row place)) }
        ensures err { OnErr result (self.new ≡ self.old) }
    {
        if pass >= self.passes || row >= self.rows || place >= WIDTH {
            return Ok(false);
        }
        let alloc = *self.words.allocator();
        let view = &self.views[pass as usize];
        if !may_read(alloc, &self.words, self.passes, self.rows, view, row)? {
            return Ok(false);
        }
        let first = 1 + self.passes as usize + self.rows as usize + WIDTH as usize * row as usize;
        let word = self.words[first + place as usize];
        let view = &mut self.views[pass as usize];
        view.read(word);
        Ok(true)
    }

    // Takes a row, if it is free. After want of memory nothing changed.
    pub(crate) fn take(&mut self, pass: u32, row: u32) -> Result<bool, AllocError>
        ensures done { IfOk result (λ done. done ≡ allows self.old (Take pass row)) }
        ensures next { OnOk result (self.new ≡ after self.old (Take pass row)) }
        ensures err { OnErr result (self.new ≡ self.old) }
    {
        if pass >= self.passes || row >= self.rows {
            return Ok(false);
        }
        let owner = 1 + self.passes as usize + row as usize;
        if self.words[owner] != 0 {
            return Ok(true);
        }
        let view = &mut self.views[pass as usize];
        view.take(row)?;
        self.words[owner] = pass as u64 + 1;
        Ok(true)
    }

    // Stores a word of a fresh row.
    pub(crate) fn write(&mut self, pass: u32, row: u32, place: u32, word: u64) -> bool
        ensures done { result ≡ allows self.old (Write pass row place word) }
        ensures next { self.new ≡ after self.old (Write pass row place word) }
    {
        if pass >= self.passes || row >= self.rows || place >= WIDTH {
            return false;
        }
        if !self.views[pass as usize].has_fresh(row) {
            return false;
        }
        let first = 1 + self.passes as usize + self.rows as usize + WIDTH as usize * row as usize;
        self.words[first + place as usize] = word;
        true
    }

    // Gives a row back, a fresh one or one of a batch that no reservation blocks.
    pub(crate) fn free(&mut self, pass: u32, row: u32) -> bool
        ensures done { result ≡ allows self.old (Free pass row) }
        ensures next { self.new ≡ after self.old (Free pass row) }
    {
        if pass >= self.passes || row >= self.rows {
            return false;
        }
        if !self.views[pass as usize].may_free(row, self.passes) {
            return false;
        }
        self.words[1 + self.passes as usize + row as usize] = 0;
        let view = &mut self.views[pass as usize];
        view.free(row);
        true
    }

    // Takes the reservation back and lets go of the pinned version.
    pub(crate) fn unpin(&mut self, pass: u32) -> bool
        ensures done { result ≡ allows self.old (Unpin pass) }
        ensures next { self.new ≡ after self.old (Unpin pass) }
    {
        if pass >= self.passes {
            return false;
        }
        if self.views[pass as usize].pinned.is_none() {
            return false;
        }
        self.words[1 + pass as usize] = 0;
        let view = &mut self.views[pass as usize];
        view.pinned = None;
        true
    }
}
