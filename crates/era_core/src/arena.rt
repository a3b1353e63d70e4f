//! The machine as it runs.

ghost use Rattle.std.specs.Prelude.{◌≡◌, ◌<◌, ◌≤◌, map, replicate, false, IfOk, OnOk, OnErr, IfErr, None};
ghost use Rattle.era_core.specs.Words.{version, root_row, reservation};
ghost use Rattle.era_core.specs.Machine.{start, start_views, start_copies, owner_of, cell_of, last_of, allows, after, play, copies, first_refused, IsSound};
ghost use Rattle.era_core.specs.Refusals.{IsFirstRefused};
ghost use Rattle.era_core.specs.Passes.{view_of};

mod publish;
mod steps;

use crate::event::Event;
use crate::pass::PassView;
use crate::play::PlayRefusal;
use crate::sizes::{MOST_PASSES, MOST_ROWS, ROOT_ROWS, WIDTH};
use crate::words::first_words;
use std::alloc::{AllocError, Global};
use std::marker::Model;

// The views at the start, in the order of their passes.
fn first_views(alloc: Global, passes: u32) -> Result<Vec<PassView>, AllocError>
    ensures { IfOk result (λ views. map view_of views.items ≡ start_views 0 passes) }
{
    let mut views = Vec::new(alloc);
    for number in 0..passes {
        views.push(PassView::new(alloc, number))?;
    }
    Ok(views)
}

// The marks at the start.
fn first_marks(alloc: Global, rows: u32) -> Result<Vec<bool>, AllocError>
    ensures { IfOk result (λ marks. marks.items ≡ replicate rows false) }
{
    vec![in alloc; false; rows as usize]
}

/// The machine: its words, and a view for each pass.
#[derive(Drop)]
pub struct Core {
    rows: u32,
    passes: u32,
    words: Vec<u64>,
    views: Vec<PassView>,
    // A mark for each row, all of them clear between steps.
    marks: Vec<bool>,
}

impl Model for Core {
    ghost use Rattle.std.specs.Prelude.{map};
    ghost use Rattle.era_core.specs.Machine.{Machine, IsAtRest};
    ghost use Rattle.era_core.specs.Passes.{view_of};

    ghost Value = { Machine };

    ghost view = { λ c. record { rows = c.rows; passes = c.passes; words = c.words.items; views = map view_of c.views.items } };

    ghost invariant = { λ c. IsAtRest (record { rows = c.rows; passes = c.passes; words = c.words.items; views = map view_of c.views.items }) c.marks.items };
}

impl Core {
    /// The machine at its start, with so many rows, 1 to [`MOST_ROWS`], and passes, 1 to [`MOST_PASSES`]. Row 0 is the
    /// empty leaf that version 0 consists of, and every other row is free.
    pub fn start(alloc: Global, rows: u32, passes: u32) -> Result<Core, AllocError>
        requires some_row { 0 < rows }
        requires few_rows { rows ≤ MOST_ROWS }
        requires some_pass { 0 < passes }
        requires few_passes { passes ≤ MOST_PASSES }
        ensures { IfOk result (λ core. core ≡ start rows passes) }
    {
        let words = first_words(alloc, rows, passes)?;
        let views = first_views(alloc, passes)?;
        let marks = first_marks(alloc, rows)?;
        Ok(Core {
            rows,
            passes,
            words,
            views,
            marks,
        })
    }

    /// Lets the event happen: false exactly where it is not allowed. Then, and after want of memory, nothing changed.
    pub fn step(&mut self, event: Event) -> Result<bool, AllocError>
        ensures allowed { IfOk result (λ done. done ≡ allows self.old event) }
        ensures next { OnOk result (self.new ≡ after self.old event) }
        ensures err { OnErr result (self.new ≡ self.old) }
    {
        match event {
            Event::Note { pass } => Ok(self.note(pass)),
            Event::Announce { pass } => Ok(self.announce(pass)),
            Event::Pin { pass } => Ok(self.pin(pass)),
            Event::Read { pass, row, place } => self.read(pass, row, place),
            Event::Take { pass, row } => self.take(pass, row),
            Event::Write {
                pass,
                row,
                place,
                word,
            } => Ok(self.write(pass, row, place, word)),
            Event::Publish { pass, root } => self.publish(pass, root),
            Event::Unpin { pass } => Ok(self.unpin(pass)),
            Event::Look { pass, other } => Ok(self.look(pass, other)),
            Event::Free { pass, row } => Ok(self.free(pass, row)),
        }
    }

    /// Plays the events from the start, with so many rows, 1 to [`MOST_ROWS`], and passes, 1 to [`MOST_PASSES`].
    /// `Illegal` comes exactly where an event is not allowed, with the index of the first; else the machine is as the events leave it, and
    /// sound with the versions that they published.
    pub fn play(
        alloc: Global,
        rows: u32,
        passes: u32,
        events: &[Event],
    ) -> Result<Core, PlayRefusal>
        requires some_row { 0 < rows }
        requires few_rows { rows ≤ MOST_ROWS }
        requires some_pass { 0 < passes }
        requires few_passes { passes ≤ MOST_PASSES }
        ensures played { IfOk result (λ core. core ≡ play events.now (start rows passes)) }
        ensures sound { IfOk result (λ core. IsSound core (copies events.now (start rows passes) (start_copies rows passes))) }
        ensures rows { IfOk result (λ core. core.rows ≡ rows) }
        ensures passes { IfOk result (λ core. core.passes ≡ passes) }
        ensures allowed { OnOk result (first_refused events.now (start rows passes) ≡ None) }
        ensures refused { IfErr result (IsFirstRefused events.now (start rows passes)) }
    {
        let Ok(mut core) = Core::start(alloc, rows, passes) else {
            return Err(PlayRefusal::Memory);
        };
        for (index, event) in events.iter().enumerate() {
            match core.step(*event) {
                Ok(true) => {}
                Ok(false) => return Err(PlayRefusal::Illegal(index)),
                Err(_) => return Err(PlayRefusal::Memory),
            }
        }
        Ok(core)
    }

    /// The version that is published, and its root row.
    pub fn root(&self) -> (u64, u32)
        ensures { result ≡ (version self.now.words, root_row self.now.words) }
    {
        let word = self.words[0];
        (word / ROOT_ROWS, (word % ROOT_ROWS) as u32)
    }

    /// The owner of a row: 0 where it is free, and the number of its pass and 1 else.
    pub fn owner(&self, row: u32) -> u32
        requires { row < self.now.rows }
        ensures { result ≡ owner_of self.now row }
    {
        self.words[1 + self.passes as usize + row as usize] as u32
    }

    /// The reservation of a pass: 0 where it has none, and the version and 1 else.
    pub fn announcement(&self, pass: u32) -> u64
        requires { pass < self.now.passes }
        ensures { result ≡ reservation self.now.passes self.now.rows self.now.words pass }
    {
        self.words[1 + pass as usize]
    }

    /// The word of a row at a place below [`WIDTH`](crate::WIDTH).
    pub fn cell(&self, row: u32, place: u32) -> u64
        requires row_in_range { row < self.now.rows }
        requires place_in_range { place < WIDTH }
        ensures { result ≡ cell_of self.now row place }
    {
        let first = 1 + self.passes as usize + self.rows as usize + WIDTH as usize * row as usize;
        self.words[first + place as usize]
    }

    /// The word that a pass read last: `None` exactly where it has read nothing yet.
    pub fn last_read(&self, pass: u32) -> Option<u64>
        requires { pass < self.now.passes }
        ensures { result ≡ last_of self.now pass }
    {
        self.views[pass as usize].last
    }
}
